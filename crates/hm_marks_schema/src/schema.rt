//! The schema of bookmarks.
ghost use Rattle.std.specs.Prelude.{◌≡◌, [], ◌∷◌, map, IfOk};
ghost use Rattle.hm_tree.specs.Names.{Name as NameValue};
ghost use Rattle.hm_schema.specs.Values.{node_value, options_value};
ghost use Rattle.hm_format.specs.Answers.{GivesSchema};
ghost use Rattle.hm_format.specs.Options.{AreSound};
ghost use Rattle.hm_marks_schema.specs.Schema as spec;

use hm_book_cards::{empty_node, list_node, open_node, shape_of};
use hm_format::{FormatFault, first_bad_key};
use hm_schema::{Node, NodeId, Options, Schema};
use hm_tree::{Class, Memory, Name};
use std::alloc::Global;

/// The schema of the trees of bookmarks.
#[tactic(auto, using(crate::proofs::Schemas::nodes_formed))]
pub fn marks_schema(alloc: Global) -> Result<Schema, Memory>
    ensures { IfOk result (λ schema. schema ≡ spec.marks_schema) }
{
    let nodes = marks_nodes(alloc)?;
    Ok(Schema::new(nodes, NodeId { place: 0 }))
}

/// The schema of the trees of a file of bookmarks, or the first key of its options, since it has none.
pub fn schema_under(alloc: Global, options: &Options) -> Result<Schema, FormatFault>
    requires { AreSound (options_value options.now) }
    ensures { GivesSchema (spec.schema_under (options_value options.now)) result }
{
    match first_bad_key(alloc, &[], options)? {
        Some(key) => Err(FormatFault::BadOption { key }),
        None => Ok(marks_schema(alloc)?),
    }
}

// Its nodes, numbered as a check numbers those of a view.
fn marks_nodes(alloc: Global) -> Result<Vec<Node>, Memory>
    ensures { IfOk result (λ nodes. map node_value nodes.items ≡ spec.marks_schema.nodes) }
{
    let mut nodes = Vec::with_capacity(alloc, 7)?;
    nodes.push(top_node(alloc)?)?;
    nodes.push(open_node(alloc, Class::Clean, 0, None, 2)?)?;
    nodes.push(list_node(alloc, false, 3, 6)?)?;
    nodes.push(item_node(alloc)?)?;
    nodes.push(open_node(alloc, Class::Clean, 1, Some(1), 5)?)?;
    nodes.push(empty_node(alloc)?)?;
    nodes.push(list_node(alloc, true, 3, 6)?)?;
    Ok(nodes)
}

// The node of a whole file, which has two folders.
fn top_node(alloc: Global) -> Result<Node, Memory>
    ensures { IfOk result (λ node. node_value node ≡ spec.top_node) }
{
    let bar = Name::from_text(alloc, "bar")?;
    let other = Name::from_text(alloc, "other")?;
    let shape = shape_of(alloc, vec![in alloc; bar.copy()?, other.copy()?]?)?;
    Ok(Node {
        shapes: vec![in alloc; shape]?,
        children: vec![in alloc; (bar, NodeId { place: 1 }), (other, NodeId { place: 1 })]?,
        other: None,
        twins: Vec::new(alloc),
    })
}

// The node of an item, which is a folder or a link.
fn item_node(alloc: Global) -> Result<Node, Memory>
    ensures { IfOk result (λ node. node_value node ≡ spec.item_node) }
{
    let folder = Name::from_text(alloc, "folder")?;
    let url = Name::from_text(alloc, "url")?;
    let of_folder = shape_of(alloc, vec![in alloc; folder.copy()?]?)?;
    let of_link = shape_of(alloc, vec![in alloc; url.copy()?]?)?;
    Ok(Node {
        shapes: vec![in alloc; of_folder, of_link]?,
        children: vec![in alloc; (folder, NodeId { place: 1 }), (url, NodeId { place: 4 })]?,
        other: None,
        twins: Vec::new(alloc),
    })
}
