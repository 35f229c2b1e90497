//! What the edges of a node lead to, put on a stack.
ghost use Rattle.std.specs.Prelude.{◌≡◌, ◌<◌, ◌++◌, ◌||◌, OnOk, Some, length, reverse, slice_get};
ghost use Rattle.hm_schema.specs.Values.{NodeValue};
ghost use Rattle.hm_schema.specs.Tidied.{tidied};
ghost use Rattle.hm_types_schemas.specs.Ends.{ends, other_ends};

use hm_schema::NodeId;
use hm_tree::Memory;
use hm_types_table::{Table, count, lets_some_in, listed, other};

// Puts what the edges of a node lead to, tidied, on a stack: the first is on top.
pub fn push_ends(todo: &mut Vec<NodeId>, table: &Table, id: NodeId) -> Result<(), Memory>
    requires { id.place < length table.now }
    ensures { OnOk result ((n : NodeValue) → slice_get table.now id.place ≡ Some n → reverse todo.new.items ≡ ends (tidied n) ++ reverse todo.old.items) }
{
    let all = lets_some_in(table, id);
    if all {
        push_other(todo, table, id)?;
    }
    let mut place = count(table, id);
    while place > 0 {
        place -= 1;
        let (next, stands) = listed(table, id, place);
        if is_left(all, stands) {
            todo.push(next)?;
        }
    }
    Ok(())
}

// Whether a listed name is left of a node that is tidied, where all of them are or where this one stands in a shape.
pub fn is_left(all: bool, stands: bool) -> bool
    ensures { result ≡ all || stands }
{
    all || stands
}

// Puts what all other names lead to on a stack.
fn push_other(todo: &mut Vec<NodeId>, table: &Table, id: NodeId) -> Result<(), Memory>
    requires { id.place < length table.now }
    ensures { OnOk result ((n : NodeValue) → slice_get table.now id.place ≡ Some n → reverse todo.new.items ≡ other_ends n.other ++ reverse todo.old.items) }
{
    if let Some(other) = other(table, id) {
        todo.push(other.1)?;
    }
    Ok(())
}
