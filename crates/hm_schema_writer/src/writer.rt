//! Writing: nodes as lines. Each part of a line has the space in front of it.
ghost use Rattle.std.specs.Prelude.{◌≡◌, ◌++◌, ◌∷◌, [], length, map, codes, flat_map, OnOk};
ghost use Rattle.std.specs.Fmt.{decimal};
ghost use Rattle.hm_schema.specs.Values.{node_value};
ghost use Rattle.hm_schema_lines.specs.declared.token.Token.TheVariants.{Word, Plus};
ghost use Rattle.hm_schema_lines.specs.NodeLines.{node, class_word};
ghost use Rattle.hm_schema_writer.specs.Writing.{quoted, optional_tokens, most_text, count_word, count_tokens, behind_spaces, ending};
ghost use Rattle.hm_schema_writer.specs.WrittenNodes.{name_at, edge_line, other_lines, shape_line, node_lines, ended_text, nodes_text};

use hm_schema::{Node, NodeId, Shape};
use hm_schema_lines::{Count, is_word};
use hm_tree::{Class, Memory, Name};
use hm_tree_spelling::append_spelled;

fn put(text: &mut Vec<u8>, bytes: &[u8]) -> Result<(), Memory>
    ensures { OnOk result (text.new.items ≡ text.old.items ++ bytes.now) }
{
    text.extend_from_slice(bytes)?;
    Ok(())
}

// ---- names

// The name of a node, and the end of the line.
fn put_node_name(text: &mut Vec<u8>, names: &[Name], id: NodeId) -> Result<(), Memory>
    ensures { OnOk result (text.new.items ≡ text.old.items ++ ending (name_at names.now id)) }
{
    text.push(b' ')?;
    if let Some(name) = names.get(id.place) {
        put(text, name.bytes())?;
    }
    put(text, b"\n")
}

fn put_quoted(text: &mut Vec<u8>, names: &[Name]) -> Result<(), Memory>
    ensures { OnOk result (text.new.items ≡ text.old.items ++ behind_spaces (quoted names.now)) }
{
    for name in names {
        text.push(b' ')?;
        append_spelled(name, text)?;
    }
    Ok(())
}

fn put_optional(text: &mut Vec<u8>, names: &[Name]) -> Result<(), Memory>
    ensures { OnOk result (text.new.items ≡ text.old.items ++ behind_spaces (optional_tokens names.now)) }
{
    match names {
        [] => Ok(()),
        [..] => {
            put(text, b" ?")?;
            put_quoted(text, names)
        }
    }
}

fn class_word(class: Class) -> &'static [u8]
    ensures { result.now ≡ class_word class }
{
    match class {
        Class::Any => b"any",
        Class::Clean => b"clean",
        Class::Filled => b"filled",
        Class::Trimmed => b"trimmed",
        Class::Folded => b"folded",
    }
}

// ---- counts

// A number behind some bytes.
fn put_number(text: &mut Vec<u8>, before: &[u8], number: u64) -> Result<(), Memory>
    ensures { OnOk result (text.new.items ≡ text.old.items ++ (before.now ++ decimal number)) }
{
    let digits = format!(in *text.allocator(); "{number}")?;
    put(text, before)?;
    put(text, digits.as_bytes())
}

fn put_most(text: &mut Vec<u8>, most: Option<u64>) -> Result<(), Memory>
    ensures { OnOk result (text.new.items ≡ text.old.items ++ (codes ".." ++ most_text most)) }
{
    match most {
        Some(number) => put_number(text, b"..", number),
        None => put(text, b".."),
    }
}

fn put_bounds(text: &mut Vec<u8>, count: Count) -> Result<(), Memory>
    ensures { OnOk result (text.new.items ≡ text.old.items ++ behind_spaces (Plus ∷ Word (count_word count) ∷ [])) }
{
    put_number(text, b" + ", count.least)?;
    put_most(text, count.most)
}

fn put_count(text: &mut Vec<u8>, count: Count) -> Result<(), Memory>
    ensures { OnOk result (text.new.items ≡ text.old.items ++ behind_spaces (count_tokens count)) }
{
    match (count.least, count.most) {
        (0, Some(0)) => Ok(()),
        _ => put_bounds(text, count),
    }
}

// ---- lines

fn put_edge(text: &mut Vec<u8>, names: &[Name], name: &Name, id: NodeId) -> Result<(), Memory>
    ensures { OnOk result (text.new.items ≡ text.old.items ++ ended_text (edge_line names.now (name.now, id))) }
{
    put(text, b"  edge ")?;
    append_spelled(name, text)?;
    put_node_name(text, names, id)
}

fn put_edges(text: &mut Vec<u8>, names: &[Name], children: &[(Name, NodeId)]) -> Result<(), Memory>
    ensures { OnOk result (text.new.items ≡ text.old.items ++ flat_map ended_text (map (edge_line names.now) children.now)) }
{
    for child in children {
        put_edge(text, names, &child.0, child.1)?;
    }
    Ok(())
}

fn put_other(
    text: &mut Vec<u8>,
    names: &[Name],
    other: &Option<(Class, NodeId)>,
) -> Result<(), Memory>
    ensures { OnOk result (text.new.items ≡ text.old.items ++ flat_map ended_text (other_lines names.now other.now)) }
{
    match other {
        Some(other) => {
            put(text, b"  other ")?;
            put(text, class_word(other.0))?;
            put_node_name(text, names, other.1)
        }
        None => Ok(()),
    }
}

fn put_shape(text: &mut Vec<u8>, shape: &Shape) -> Result<(), Memory>
    ensures { OnOk result (text.new.items ≡ text.old.items ++ ended_text (shape_line shape.now)) }
{
    put(text, b"  shape")?;
    put_quoted(text, shape.required.names())?;
    put_optional(text, shape.optional.names())?;
    let count = Count {
        least: shape.least,
        most: shape.most,
    };
    put_count(text, count)?;
    put(text, b"\n")
}

fn put_shapes(text: &mut Vec<u8>, shapes: &[Shape]) -> Result<(), Memory>
    ensures { OnOk result (text.new.items ≡ text.old.items ++ flat_map ended_text (map shape_line shapes.now)) }
{
    for shape in shapes {
        put_shape(text, shape)?;
    }
    Ok(())
}

// ---- nodes

fn put_begin(text: &mut Vec<u8>, name: &Name) -> Result<(), Memory>
    ensures { OnOk result (text.new.items ≡ text.old.items ++ ended_text (node name.now)) }
{
    put(text, b"node ")?;
    put(text, name.bytes())?;
    put(text, b"\n")
}

fn put_node(text: &mut Vec<u8>, names: &[Name], name: &Name, node: &Node) -> Result<(), Memory>
    ensures { OnOk result (text.new.items ≡ text.old.items ++ flat_map ended_text (node_lines names.now name.now (node_value node.now))) }
{
    put_begin(text, name)?;
    put_edges(text, names, &node.children)?;
    put_other(text, names, &node.other)?;
    put_shapes(text, &node.shapes)
}

/// Appends the lines of nodes under their names, but not those of the node `Empty`, which has to be the last one where it is among them.
pub fn append_nodes(text: &mut Vec<u8>, names: &[Name], nodes: &[Node]) -> Result<(), Memory>
    requires { length names.now ≡ length nodes.now }
    ensures { OnOk result (text.new.items ≡ text.old.items ++ nodes_text names.now (map node_value nodes.now)) }
{
    for place in 0..names.len() {
        let name = &names[place];
        if is_word(name, b"Empty") {
            return Ok(());
        }
        put_node(text, names, name, &nodes[place])?;
    }
    Ok(())
}
