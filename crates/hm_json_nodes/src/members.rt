//! The members of a node, set one by one.
ghost use Rattle.std.specs.Prelude.{◌≡◌, IfOk, OnOk, option_map};
ghost use Rattle.serde_json.specs.Data.{string, object, put};
ghost use Rattle.serde_json.specs.Find.{get_member};
ghost use Rattle.serde_json.specs.View.{view, members_view};
ghost use Rattle.hm_json_nodes.specs.Nodes.{json};

use hm_tree::{Memory, Name};
use serde_json::{Map, Value};
use std::alloc::Global;

/// Puts a value at a key, and gives what was there before.
pub fn replace(
    alloc: Global,
    members: &mut Map<String, Value>,
    key: &str,
    value: Value,
) -> Result<Option<Value>, Memory>
    ensures new { OnOk result (members_view members.new.entries ≡ put key.now (view value) (members_view members.old.entries)) }
    ensures old { IfOk result (λ old. option_map view old ≡ get_member key.now (members_view members.old.entries)) }
{
    Ok(members.insert(String::from_str(alloc, key)?, value)?)
}

/// Puts a value at a key.
pub fn set(
    alloc: Global,
    members: &mut Map<String, Value>,
    key: &str,
    value: Value,
) -> Result<(), Memory>
    ensures { OnOk result (members_view members.new.entries ≡ put key.now (view value) (members_view members.old.entries)) }
{
    replace(alloc, members, key, value)?;
    Ok(())
}

// A new link.
pub(crate) fn new_link(alloc: Global, name: &Name, address: &Name) -> Result<Value, Memory>
    ensures { IfOk result (λ node. view node ≡ object (json.new_link name.now address.now)) }
{
    let mut members = Map::new(alloc);
    set(alloc, &mut members, "name", text(alloc, name.text())?)?;
    set(alloc, &mut members, "type", text(alloc, "url")?)?;
    set(alloc, &mut members, "url", text(alloc, address.text())?)?;
    Ok(Value::Object(members))
}

// The members of a new folder with nothing in it.
pub(crate) fn new_folder(alloc: Global, name: &Name) -> Result<Map<String, Value>, Memory>
    ensures { IfOk result (λ members. members_view members.entries ≡ json.new_folder name.now) }
{
    let mut members = Map::new(alloc);
    set(
        alloc,
        &mut members,
        "children",
        Value::Array(Vec::new(alloc)),
    )?;
    set(alloc, &mut members, "name", text(alloc, name.text())?)?;
    set(alloc, &mut members, "type", text(alloc, "folder")?)?;
    Ok(members)
}

// A text as a value.
pub(crate) fn text(alloc: Global, text: &str) -> Result<Value, Memory>
    ensures { IfOk result (λ value. view value ≡ string text.now) }
{
    Ok(Value::String(String::from_str(alloc, text)?))
}
