//! Attributes with another address.
ghost use Rattle.std.specs.Prelude.{◌≡◌, ◌++◌, OnOk};
ghost use Rattle.hm_marks_tokens.specs.Attributes.{spelled_attribute, with_value, with_address};
ghost use Rattle.hm_marks_tokens.specs.Entities.{escaped};
ghost use Rattle.hm_marks_tokens.specs.Lent.{attribute_seen};

use crate::attributes::{Attribute, is_address, next_attribute};
use crate::entities::add_escaped;
use hm_tree::Memory;

/// Puts attributes behind others with another value of the first `HREF`, in quotes and with entities; all else stays, byte for
/// byte.
pub fn add_readdressed(out: &mut Vec<u8>, attributes: &[u8], address: &[u8]) -> Result<(), Memory>
    ensures { OnOk result (out.new.items ≡ out.old.items ++ with_address (escaped address.now) attributes.now) }
{
    let mut rest = attributes;
    while let Some((attribute, behind)) = next_attribute(rest) {
        if is_address(attribute) {
            add_with_value(out, attribute, address)?;
            return Ok(out.extend_from_slice(behind)?);
        }
        out.extend_from_slice(&rest[..rest.len() - behind.len()])?;
        rest = behind;
    }
    Ok(out.extend_from_slice(rest)?)
}

// Puts an attribute behind bytes with another value, in quotes and with entities.
fn add_with_value(out: &mut Vec<u8>, attribute: Attribute<'_>, value: &[u8]) -> Result<(), Memory>
    ensures { OnOk result (out.new.items ≡ out.old.items ++ spelled_attribute (with_value (attribute_seen attribute.entry) (escaped value.now))) }
{
    out.extend_from_slice(attribute.blank)?;
    out.extend_from_slice(attribute.name)?;
    out.extend_from_slice(b"=\"")?;
    add_escaped(out, value)?;
    Ok(out.push(b'"')?)
}
