//! The program that the lines of a lens file describe.
ghost use Rattle.std.specs.Prelude.{◌≡◌, ◌⊎◌, ◌++◌, [], Some, None, IfOk, MatchOption, OnOk, length, map};
ghost use Rattle.std.specs.List.{cons_option};
ghost use Rattle.hm_schema_lines.specs.Entries.{entry_value, entry_values};
ghost use Rattle.hm_schema_lines.specs.FirstBad.{HasNoBad};
ghost use Rattle.hm_schema_lines.specs.Firsts.{AreFirsts, node_names, begun_name};
ghost use Rattle.hm_schema_lines.specs.BadLines.{IsNode};
ghost use Rattle.hm_schema_lines.specs.Nodes.{AreTypeNames};
ghost use Rattle.hm_terms.specs.Programs.{definition_value};
ghost use Rattle.hm_focal.specs.OwnLines.{lens_value, own_value, own_values, nodes_in, named_nodes};
ghost use Rattle.hm_focal.specs.BadLines.{IsBadLine};
ghost use Rattle.hm_focal.specs.LensFiles.{IsDefinitionOf};
ghost use Rattle.hm_focal.specs.Building.{IsBuiltDefinition, AreNamed, IsTaken, AreBuilt};

use crate::own::{Body, FormatLine, LensLine, Own};
use hm_schema_lines::{Entry, begun, is_empty_named, node_of};
use hm_terms::{Definition, Term};
use hm_tree::{Memory, Name};
use indexmap::IndexMap;
use std::alloc::Global;
use std::collections::VecDeque;
use std::string::String;

// Puts the names of the nodes that a line names behind others.
fn push_nodes(names: &mut Vec<Name>, own: &Own) -> Result<(), Memory>
    ensures { OnOk result (names.new.items ≡ names.old.items ++ nodes_in (own_value own.now)) }
{
    if let Own::Lens(lens) = own {
        names.push(lens.source.copy()?)?;
        names.push(lens.view.copy()?)?;
    }
    Ok(())
}

/// The names of the nodes that lens lines name.
pub fn named_nodes(alloc: Global, own: &[Own]) -> Result<Vec<Name>, Memory>
    ensures { IfOk result (λ names. names.items ≡ named_nodes (own_values own.now)) }
{
    let mut names = Vec::new(alloc);
    for line in own {
        push_nodes(&mut names, line)?;
    }
    Ok(names)
}

// Puts the name of the node that a line begins behind others.
fn push_begun(names: &mut Vec<Name>, entry: &Entry) -> Result<(), Memory>
    ensures { OnOk result (names.new.items ≡ names.old.items ++ cons_option (begun_name (entry_value entry.now)) []) }
{
    if let Some(name) = begun(entry) {
        names.push(name.copy()?)?;
    }
    Ok(())
}

// The names of the declared nodes, in order.
fn declared_names(alloc: Global, entries: &[Entry]) -> Result<Vec<Name>, Memory>
    ensures { IfOk result (λ names. names.items ≡ node_names (entry_values entries.now)) }
{
    let mut names = Vec::new(alloc);
    for entry in entries {
        push_begun(&mut names, entry)?;
    }
    Ok(names)
}

/// The names of the nodes, in order, and behind them `Empty` where it is named.
pub fn type_names(alloc: Global, entries: &[Entry], own: &[Name]) -> Result<Vec<Name>, Memory>
    ensures { IfOk result (λ names. AreTypeNames (entry_values entries.now) own.now names.items) }
{
    let mut names = declared_names(alloc, entries)?;
    if is_empty_named(entries, own) {
        names.push(Name::from_text(alloc, "Empty")?)?;
    }
    Ok(names)
}

/// What the file's own lines describe.
#[derive(Drop)]
pub struct Parts {
    pub format: Option<FormatLine>,
    pub definitions: Vec<Definition>,
    pub main: Option<Term>,
}

impl Parts {
    /// The format line, the definitions and the main lens, where none of these is missing.
    pub fn whole(self) -> Option<(FormatLine, Vec<Definition>, Term)>
        ensures { MatchOption result ((self.format ≡ None) ⊎ (self.main ≡ None)) (λ parts. (self.format ≡ Some parts.0) × (self.definitions ≡ parts.1) × (self.main ≡ Some parts.2)) }
    {
        let Parts {
            format,
            definitions,
            main,
        } = self;
        let format = format?;
        let main = main?;
        Some((format, definitions, main))
    }
}

// The definition of a lens line; none where the text of its body is too large.
fn definition_of(
    lens: LensLine,
    entries: &[Entry],
    declared: &IndexMap<String, usize>,
) -> Option<Definition>
    requires declared { AreFirsts declared.now (node_names (entry_values entries.now)) }
    requires source { IsNode (entry_values entries.now) (lens_value lens).source }
    requires view { IsNode (entry_values entries.now) (lens_value lens).view }
    ensures { IsBuiltDefinition (entry_values entries.now) (lens_value lens) result }
{
    let LensLine {
        name,
        source,
        view,
        body,
    } = lens;
    let source = node_of(entries, declared, &source);
    let view = node_of(entries, declared, &view);
    match body {
        Body::Term(body) => Some(Definition {
            name,
            source,
            view,
            body,
        }),
        Body::Oversized => None,
    }
}

// Puts a line to what stands before it.
fn take_line(
    parts: &mut Parts,
    line: Own,
    entries: &[Entry],
    declared: &IndexMap<String, usize>,
) -> Result<(), Memory>
    requires declared { AreFirsts declared.now (node_names (entry_values entries.now)) }
    requires nodes { AreNamed (entry_values entries.now) (own_value line) }
    ensures { OnOk result (IsTaken (entry_values entries.now) (own_value line) parts.old parts.new) }
{
    match line {
        Own::Format(format) => {
            parts.format = Some(Box::into_inner(format));
            Ok(())
        }
        Own::Lens(lens) => {
            if let Some(definition) = definition_of(Box::into_inner(lens), entries, declared) {
                parts.definitions.push(definition)?;
            }
            Ok(())
        }
        Own::Main(body) => {
            if let Body::Term(term) = Box::into_inner(body) {
                parts.main = Some(term);
            }
            Ok(())
        }
        _ => Ok(()),
    }
}

/// The parts of the program, by the lines of a file without a bad one.
pub fn build_parts(
    alloc: Global,
    own: Vec<Own>,
    entries: &[Entry],
    declared: &IndexMap<String, usize>,
) -> Result<Parts, Memory>
    requires sound { HasNoBad (IsBadLine (entry_values entries.now) (own_values own.items)) }
    requires declared { AreFirsts declared.now (node_names (entry_values entries.now)) }
    ensures { IfOk result (AreBuilt (entry_values entries.now) (own_values own.items)) }
{
    let mut parts = Parts {
        format: None,
        definitions: Vec::new(alloc),
        main: None,
    };
    let mut rest = VecDeque::from(own);
    while let Some(line) = rest.pop_front() {
        take_line(&mut parts, line, entries, declared)?;
    }
    Ok(parts)
}
