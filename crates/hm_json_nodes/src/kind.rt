//! What a value is as a node, by its members.
ghost use Rattle.std.specs.Prelude.{◌≡◌, option_map};
ghost use Rattle.serde_json.specs.View.{view, items_view};
ghost use Rattle.hm_json_nodes.specs.Nodes.{text_at, children_of, has_type};
ghost use Rattle.hm_json_nodes.specs.Kinds.{kind_seen, kind_of};

use serde_json::Value;

/// A link by its name and its address, a folder by its name and its children, or neither.
#[derive(Clone, Copy)]
pub enum Kind<'a> {
    Link(&'a str, &'a str),
    Folder(&'a str, &'a Vec<Value>),
    Neither,
}

/// What a value is as a node.
pub fn kind_of(node: &Value) -> Kind<'_>
    ensures { kind_seen result ≡ kind_of (view node.now) }
{
    let (link, folder) = (has_type(node, "url"), has_type(node, "folder"));
    match (
        text_at(node, "name"),
        text_at(node, "url"),
        children_of(node),
    ) {
        (Some(name), Some(url), _) if link => Kind::Link(name, url),
        (Some(name), _, Some(children)) if folder => Kind::Folder(name, children),
        _ => Kind::Neither,
    }
}

// Whether a value has a type.
fn has_type(node: &Value, word: &str) -> bool
    ensures { result ≡ has_type word.now (view node.now) }
{
    match text_at(node, "type") {
        Some(text) => text == word,
        None => word.is_empty(),
    }
}

// The text at a key.
pub(crate) fn text_at<'a>(node: &'a Value, key: &str) -> Option<&'a str>
    ensures { option_map (λ text. text.now) result ≡ text_at key.now (view node.now) }
{
    node.get(key).and_then(Value::as_str)
}

// The values of the array at `children`.
fn children_of(node: &Value) -> Option<&Vec<Value>>
    ensures { option_map (λ values. items_view values.now.items) result ≡ children_of (view node.now) }
{
    node.get("children").and_then(Value::as_array)
}
