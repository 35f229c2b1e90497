//! Nodes that are written anew.
ghost use Rattle.std.specs.Prelude.{◌≡◌, IfOk, Option, Some};
ghost use Rattle.std.specs.Str.{bytes_eq};
ghost use Rattle.serde_json.specs.Data.{object, Items, Members};
ghost use Rattle.serde_json.specs.View.{view, items_view, members_view};
ghost use Rattle.hm_marks.specs.Writing.{link_for, folder_for, inside_of, addressed};
ghost use Rattle.hm_json_nodes.specs.Nodes.{json, AreNodes, children_of, emptied, is_link, name_at, url_key};
ghost use Rattle.hm_json_nodes.specs.Anew.{OldItem, IsOld, IsNodeOf};

use crate::kind::{Kind, kind_of, text_at};
use crate::members::{new_folder, new_link, replace, set, text};
use hm_tree::{Memory, Name};
use serde_json::{Map, Value};
use std::alloc::Global;

// The link with a key and an address: that from before, if it was a link, and else a new one.
pub(crate) fn link_anew(
    alloc: Global,
    key: &Name,
    old: Option<Value>,
    address: &Name,
) -> Result<Value, Memory>
    requires { (item : Option OldItem) × IsOld old item }
    ensures { IfOk result (λ node. (item : Option OldItem) → IsOld old item → view node ≡ object (link_for json key.now item address.now)) }
{
    match old {
        Some(node) => link_over(alloc, key, node, address),
        None => new_link(alloc, key, address),
    }
}

// The same over a node from before.
fn link_over(alloc: Global, key: &Name, node: Value, address: &Name) -> Result<Value, Memory>
    requires { (item : OldItem) × IsNodeOf (view node) item }
    ensures { IfOk result (λ new. (item : OldItem) → IsNodeOf (view node) item → view new ≡ object (link_for json key.now (Some item) address.now)) }
{
    if is_link(&node) {
        addressed(alloc, node, address)
    } else {
        new_link(alloc, key, address)
    }
}

// The members of a folder with a key, with nothing in it, and what stood in it: those from before, if there was a folder, and
// else new ones.
pub(crate) fn folder_anew(
    alloc: Global,
    key: &Name,
    old: Option<Value>,
) -> Result<(Map<String, Value>, Vec<Value>), Memory>
    requires { (item : Option OldItem) × IsOld old item }
    ensures members { IfOk result (λ parts. (item : Option OldItem) → IsOld old item → members_view parts.0.entries ≡ folder_for json key.now item) }
    ensures inside { IfOk result (λ parts. (item : Option OldItem) → IsOld old item → AreNodes (items_view parts.1.items) (inside_of json item)) }
{
    match old {
        Some(node) => folder_over(alloc, key, node),
        None => Ok((new_folder(alloc, key)?, Vec::new(alloc))),
    }
}

// The same over a node from before.
fn folder_over(
    alloc: Global,
    key: &Name,
    node: Value,
) -> Result<(Map<String, Value>, Vec<Value>), Memory>
    requires { (item : OldItem) × IsNodeOf (view node) item }
    ensures members { IfOk result (λ parts. (item : OldItem) → IsNodeOf (view node) item → members_view parts.0.entries ≡ folder_for json key.now (Some item)) }
    ensures inside { IfOk result (λ parts. (item : OldItem) → IsNodeOf (view node) item → AreNodes (items_view parts.1.items) (inside_of json (Some item))) }
{
    if is_link(&node) {
        Ok((new_folder(alloc, key)?, Vec::new(alloc)))
    } else {
        emptied(alloc, node)
    }
}

// Whether a node is a link.
fn is_link(node: &Value) -> bool
    ensures { result ≡ is_link (view node.now) }
{
    match kind_of(node) {
        Kind::Link(_, _) => true,
        _ => false,
    }
}

// Whether a link has an address.
fn has_address(alloc: Global, node: &Value, address: &Name) -> Result<bool, Memory>
    ensures { IfOk result (λ same. (members : Members) → view node.now ≡ object members → same ≡ bytes_eq (name_at url_key members) address.now) }
{
    let old = Name::cleaned(alloc, text_at(node, "url").unwrap_or(""))?;
    Ok(are_same(old.text(), address.text()))
}

fn are_same(one: &str, two: &str) -> bool
    ensures { result ≡ bytes_eq one.now two.now }
{
    one == two
}

// A link with an address: it stays as it is where it has this one.
fn addressed(alloc: Global, node: Value, address: &Name) -> Result<Value, Memory>
    requires { (members : Members) × (view node ≡ object members) }
    ensures { IfOk result (λ new. (members : Members) → view node ≡ object members → view new ≡ object (addressed json members address.now)) }
{
    if has_address(alloc, &node, address)? {
        Ok(node)
    } else {
        readdressed(alloc, node, address)
    }
}

// A link with another address.
fn readdressed(alloc: Global, node: Value, address: &Name) -> Result<Value, Memory>
    requires { (members : Members) × (view node ≡ object members) }
    ensures { IfOk result (λ new. (members : Members) → view node ≡ object members → view new ≡ object (json.readdressed members address.now)) }
{
    match node {
        Value::Object(mut members) => {
            set(alloc, &mut members, "url", text(alloc, address.text())?)?;
            Ok(Value::Object(members))
        }
        _ => unreachable!(),
    }
}

// A folder taken apart: its members but for what stands in it, and that.
pub(crate) fn emptied(
    alloc: Global,
    node: Value,
) -> Result<(Map<String, Value>, Vec<Value>), Memory>
    requires { (members : Members) × (children : Items) × (view node ≡ object members) × (children_of (object members) ≡ Some children) }
    ensures members { IfOk result (λ parts. (members : Members) → view node ≡ object members → members_view parts.0.entries ≡ emptied members) }
    ensures children { IfOk result (λ parts. (children : Items) → children_of (view node) ≡ Some children → items_view parts.1.items ≡ children) }
{
    match node {
        Value::Object(mut members) => {
            match replace(
                alloc,
                &mut members,
                "children",
                Value::Array(Vec::new(alloc)),
            )? {
                Some(Value::Array(children)) => Ok((members, children)),
                _ => unreachable!(),
            }
        }
        _ => unreachable!(),
    }
}
