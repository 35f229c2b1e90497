//! Lens files, written.
ghost use Rattle.std.specs.Prelude.{◌≡◌, ◌++◌, ◌∷◌, ◌<◌, All, List, ℕ, IfOk, OnOk, codes, flat_map, length, map};
ghost use Rattle.hm_tree_spelling.specs.Spelling.{spelled};
ghost use Rattle.hm_schema.specs.Values.{pair_value};
ghost use Rattle.hm_terms.specs.Programs.{definition_value, program_value};
ghost use Rattle.hm_focal_terms.specs.Written.{term_text};
ghost use Rattle.hm_schema_writer.specs.Writing.{ended};
ghost use Rattle.hm_schema_writer.specs.WrittenNodes.{name_at};
ghost use Rattle.hm_focal.specs.LensFiles.{IsLensFile};
ghost use Rattle.hm_focal_writer.specs.Writing.{edges_text, option_text, format_text, definition_text, lens_text, HasSmallTexts};

use hm_focal_terms::append_term;
use hm_schema::NodeId;
use hm_schema_writer::append_nodes;
use hm_terms::{Definition, Program};
use hm_tree::{Memory, Name};
use hm_tree_spelling::append_spelled;

// Names of edges, each behind a comma.
fn put_more_edges(text: &mut Vec<u8>, names: &[Name]) -> Result<(), Memory>
    ensures { OnOk result (text.new.items ≡ text.old.items ++ flat_map (λ n. 44 ∷ spelled n) names.now) }
{
    for name in names {
        text.push(b',')?;
        append_spelled(name, text)?;
    }
    Ok(())
}

// Names of edges with commas between.
fn put_edges(text: &mut Vec<u8>, names: &[Name]) -> Result<(), Memory>
    ensures { OnOk result (text.new.items ≡ text.old.items ++ edges_text names.now) }
{
    let Some((first, more)) = names.split_first() else {
        return Ok(());
    };
    append_spelled(first, text)?;
    put_more_edges(text, more)
}

// An option behind a space.
fn put_option(text: &mut Vec<u8>, option: &(Name, Vec<Name>)) -> Result<(), Memory>
    ensures { OnOk result (text.new.items ≡ text.old.items ++ option_text (pair_value option.now)) }
{
    text.push(b' ')?;
    text.extend_from_slice(option.0.bytes())?;
    text.push(b'=')?;
    put_edges(text, &option.1)
}

fn put_options(text: &mut Vec<u8>, options: &[(Name, Vec<Name>)]) -> Result<(), Memory>
    ensures { OnOk result (text.new.items ≡ text.old.items ++ flat_map option_text (map pair_value options.now)) }
{
    for option in options {
        put_option(text, option)?;
    }
    Ok(())
}

fn put_format(
    text: &mut Vec<u8>,
    format: &Name,
    options: &[(Name, Vec<Name>)],
) -> Result<(), Memory>
    ensures { OnOk result (text.new.items ≡ text.old.items ++ ended (format_text format.now (map pair_value options.now))) }
{
    text.extend_from_slice(b"format ")?;
    text.extend_from_slice(format.bytes())?;
    put_options(text, options)?;
    text.push(b'\n')?;
    Ok(())
}

// The name of a node.
fn put_node(text: &mut Vec<u8>, names: &[Name], node: NodeId) -> Result<(), Memory>
    requires { node.place < length names.now }
    ensures { OnOk result (text.new.items ≡ text.old.items ++ name_at names.now node) }
{
    text.extend_from_slice(names[node.place].bytes())?;
    Ok(())
}

fn put_definition(text: &mut Vec<u8>, names: &[Name], definition: &Definition) -> Result<(), Memory>
    requires source { definition.now.source.place < length names.now }
    requires view { definition.now.view.place < length names.now }
    ensures { OnOk result (text.new.items ≡ text.old.items ++ ended (definition_text names.now (definition_value definition.now))) }
{
    text.extend_from_slice(b"lens ")?;
    text.extend_from_slice(definition.name.bytes())?;
    text.push(b' ')?;
    put_node(text, names, definition.source)?;
    text.push(b' ')?;
    put_node(text, names, definition.view)?;
    text.extend_from_slice(b" = ")?;
    append_term(text, &definition.body)?;
    text.push(b'\n')?;
    Ok(())
}

fn put_definitions(
    text: &mut Vec<u8>,
    names: &[Name],
    definitions: &[Definition],
) -> Result<(), Memory>
    requires { All (λ d. (d.source.place < length names.now) × (d.view.place < length names.now)) definitions.now }
    ensures { OnOk result (text.new.items ≡ text.old.items ++ flat_map (λ d. ended (definition_text names.now (definition_value d))) definitions.now) }
{
    for definition in definitions {
        put_definition(text, names, definition)?;
    }
    Ok(())
}

/// The file of a program that some file describes: no comments, and one space between two tokens. It is read as this
/// program, unless the text of a lens is oversized, which is longer in the one form in which it is written.
pub fn write_lens(program: &Program) -> Result<Vec<u8>, Memory>
    requires { (bytes : List ℕ) × IsLensFile bytes (program_value program.now) }
    ensures written { IfOk result (λ text. text.items ≡ lens_text (program_value program.now)) }
    ensures reads { IfOk result (λ text. HasSmallTexts (program_value program.now) → IsLensFile text.items (program_value program.now)) }
{
    let names = &program.options.type_names;
    let mut text = Vec::new(*program.definitions.allocator());
    text.extend_from_slice(b"harmony lens 1\n")?;
    put_format(&mut text, &program.format, &program.options.pairs)?;
    append_nodes(&mut text, names, &program.options.types)?;
    put_definitions(&mut text, names, &program.definitions)?;
    text.extend_from_slice(b"main = ")?;
    append_term(&mut text, &program.main)?;
    text.push(b'\n')?;
    Ok(text)
}
