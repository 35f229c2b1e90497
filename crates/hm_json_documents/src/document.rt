//! Documents, as they are read and written.
ghost use Rattle.std.specs.Prelude.{◌≡◌, ◌≤◌, IfOk, IfSome, IsUtf8, MatchOption, false};
ghost use Rattle.serde_json.specs.Data.{depth};
ghost use Rattle.serde_json.specs.Read.{max_depth};
ghost use Rattle.serde_json.specs.View.{view};
ghost use Rattle.serde_json.specs.Written.{compact_text, has_float};
ghost use Rattle.hm_json_documents.specs.Documents.{IsDocument, HasNoDocument};

use hm_tree::Memory;
use serde_json::Value;
use std::alloc::Global;

/// The value of the document that a text is; none where it is no document.
pub fn read_document(alloc: Global, text: &str) -> Result<Option<Value>, Memory>
    ensures document { IfOk result (λ found. MatchOption found (HasNoDocument text.now) (λ v. IsDocument text.now (view v))) }
    ensures nests { IfOk result (λ found. IfSome found (λ v. depth (view v) ≤ max_depth)) }
{
    match Value::from_str(alloc, text) {
        Ok(value) if holds_float(&value) => Ok(None),
        Ok(value) => Ok(Some(value)),
        Err(error) if error.is_memory() => Err(Memory),
        Err(_) => Ok(None),
    }
}

/// The bytes of a value as a document, with no white space between tokens.
pub fn write_document(alloc: Global, value: &Value) -> Result<Vec<u8>, Memory>
    requires no_float { has_float (view value.now) ≡ false }
    requires nests { depth (view value.now) ≤ max_depth }
    ensures text { IfOk result (λ bytes. bytes.items ≡ compact_text (view value.now)) }
    ensures document { IfOk result (λ bytes. IsDocument bytes.items (view value.now)) }
    ensures utf8 { IfOk result (λ bytes. IsUtf8 bytes.items) }
{
    Ok(value.to_vec(alloc)?)
}

// Whether there is a float somewhere in a value.
fn holds_float(value: &Value) -> bool
    ensures { result ≡ has_float (view value.now) }
{
    match value {
        Value::Number(number) => number.is_f64(),
        Value::Array(items) => {
            for item in items {
                if holds_float(item) {
                    return true;
                }
            }
            false
        }
        Value::Object(members) => {
            for (_, item) in members {
                if holds_float(item) {
                    return true;
                }
            }
            false
        }
        _ => false,
    }
}
