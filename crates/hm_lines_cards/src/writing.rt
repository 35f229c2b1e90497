//! Lines with new values.
ghost use Rattle.std.specs.Prelude.{◌≡◌, ◌++◌, ◌∷◌, [], Some, IsUtf8, IfOk, string_bytes};
ghost use Rattle.hm_lines.specs.Values.{escaped};
ghost use Rattle.hm_lines.specs.Content.{colon};
ghost use Rattle.hm_lines_cards.specs.Lines.{HasParts};
ghost use Rattle.hm_lines_cards.specs.Rewriting as spec;

use hm_lines::{LineParts, escape};
use hm_tree::{Memory, Name};
use std::alloc::Global;

/// A content line with the value of a text, behind the part up to `:`.
pub fn with_value(
    alloc: Global,
    line: &str,
    parts: LineParts,
    text: &Name,
) -> Result<String, Memory>
    requires { HasParts line.now (Some parts) }
    ensures { IfOk result (λ made. string_bytes made ≡ (spec.with_value line.now (Some parts) text.now).0) }
{
    let (front, _) = line.split_at(parts.value_from);
    made(alloc, front, text)
}

/// The content line of a name and of a text.
pub fn new_line(alloc: Global, name: &Name, text: &Name) -> Result<String, Memory>
    ensures { IfOk result (λ made. string_bytes made ≡ (spec.new_line name.now text.now).0) }
{
    let mut line = String::from_str(alloc, name.text())?;
    line.push(':')?;
    let value = value_of(alloc, text)?;
    line.push_str(&value)?;
    Ok(line)
}

// A front and behind it the value of a text.
fn made(alloc: Global, front: &str, text: &Name) -> Result<String, Memory>
    ensures { IfOk result (λ made. string_bytes made ≡ front.now ++ escaped text.now) }
{
    let mut line = String::from_str(alloc, front)?;
    let value = value_of(alloc, text)?;
    line.push_str(&value)?;
    Ok(line)
}

// The value of a text.
fn value_of(alloc: Global, text: &Name) -> Result<String, Memory>
    ensures { IfOk result (λ value. string_bytes value ≡ escaped text.now) }
{
    match String::from_utf8(escape(alloc, text)?) {
        Ok(value) => Ok(value),
        Err(_) => unreachable!(),
    }
}
