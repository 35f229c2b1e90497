//! Nodes of a table as they are written into a schema.
ghost use Rattle.std.specs.Prelude.{◌≡◌, ◌<◌, IfOk, Some, All, length, slice_get};
ghost use Rattle.std.specs.List.{AllZip};
ghost use Rattle.hm_schema.specs.Values.{NodeValue, node_value};
ghost use Rattle.hm_schema.specs.Tidied.{tidied};
ghost use Rattle.hm_types_forms.specs.Forms.{over};
ghost use Rattle.hm_types_table.specs.Tables.{AreFormed};
ghost use Rattle.hm_types_schemas.specs.Marks.{number_of};
ghost use Rattle.hm_types_schemas.specs.Writing.{IsWritten};

use crate::distinct::distinct;
use crate::marks::number_of;
use crate::pushing::is_left;
use hm_schema::{Node, NodeId, copy_pairs};
use hm_tree::{Class, Memory, Name};
use hm_types_table::{Table, lets_some_in, listed, other};
use std::alloc::Global;

// A node for each of some nodes of a table.
pub fn written(
    alloc: Global,
    table: &Table,
    classes: &[usize],
    marks: &[Option<usize>],
    order: &[NodeId],
) -> Result<Vec<Node>, Memory>
    requires formed { AreFormed table.now }
    requires size { length classes.now ≡ length table.now }
    requires inside { All (λ j. j.place < length table.now) order.now }
    ensures { IfOk result (λ nodes. AllZip (λ v j. (n : NodeValue) → slice_get table.now j.place ≡ Some n → IsWritten (number_of classes.now marks.now) n (node_value v)) nodes.items order.now) }
{
    let mut nodes = Vec::with_capacity(alloc, order.len())?;
    for id in order {
        nodes.push(node(alloc, table, classes, marks, *id)?)?;
    }
    Ok(nodes)
}

// A node as it is written.
fn node(
    alloc: Global,
    table: &Table,
    classes: &[usize],
    marks: &[Option<usize>],
    id: NodeId,
) -> Result<Node, Memory>
    requires formed { AreFormed table.now }
    requires size { length classes.now ≡ length table.now }
    requires in_range { id.place < length table.now }
    ensures { IfOk result (λ v. (n : NodeValue) → slice_get table.now id.place ≡ Some n → IsWritten (number_of classes.now marks.now) n (node_value v)) }
{
    let kind = table.at(id).0;
    Ok(Node {
        shapes: distinct(alloc, &kind.shapes)?,
        children: children(alloc, table, classes, marks, id)?,
        other: rest(table, classes, marks, id),
        twins: copy_pairs(alloc, &kind.twins)?,
    })
}

// The listed names of a node, tidied, each with the number of what it leads to.
fn children(
    alloc: Global,
    table: &Table,
    classes: &[usize],
    marks: &[Option<usize>],
    id: NodeId,
) -> Result<Vec<(Name, NodeId)>, Memory>
    requires formed { AreFormed table.now }
    requires size { length classes.now ≡ length table.now }
    requires in_range { id.place < length table.now }
    ensures { IfOk result (λ cs. (n : NodeValue) → slice_get table.now id.place ≡ Some n → cs.items ≡ (over (λ s j. number_of classes.now marks.now j) (tidied n)).children) }
{
    let all = lets_some_in(table, id);
    let names = &table.at(id).0.names;
    let mut children = Vec::new(alloc);
    for i in 0..names.len() {
        let (next, stands) = listed(table, id, i);
        if is_left(all, stands) {
            children.push((names[i].copy()?, number_of(classes, marks, next)))?;
        }
    }
    Ok(children)
}

// The class of all other names of a node, tidied, with the number of what they lead to.
fn rest(
    table: &Table,
    classes: &[usize],
    marks: &[Option<usize>],
    id: NodeId,
) -> Option<(Class, NodeId)>
    requires formed { AreFormed table.now }
    requires size { length classes.now ≡ length table.now }
    requires in_range { id.place < length table.now }
    ensures { (n : NodeValue) → slice_get table.now id.place ≡ Some n → result ≡ (over (λ s j. number_of classes.now marks.now j) (tidied n)).other }
{
    if !lets_some_in(table, id) {
        return None;
    }
    match other(table, id) {
        Some(other) => Some((other.0, number_of(classes, marks, other.1))),
        None => None,
    }
}
