//! What is said of one contact, put behind what is said of those before it.
ghost use Rattle.std.specs.Prelude.{◌≡◌, ◌++◌, OnOk, string_bytes};
ghost use Rattle.hm_generator.specs.Generated.{is_deleted_left, has_email_right, left_prefix, right_prefix};
ghost use Rattle.hm_generator.specs.Generated.{entry, row, email_line, card};

use hm_tree::Memory;

// ---- what has changed

fn is_deleted_left(contact: usize) -> bool
    ensures { result ≡ is_deleted_left contact }
{
    contact % 20 == 10 || contact % 20 == 15
}

fn has_email_right(contact: usize) -> bool
    ensures { result ≡ has_email_right contact }
{
    contact % 20 == 5 || contact % 20 == 15
}

fn left_prefix(contact: usize) -> &'static str
    ensures { result.now ≡ left_prefix contact }
{
    if contact % 20 == 0 || contact % 20 == 19 {
        "+1666"
    } else {
        "+1555"
    }
}

fn right_prefix(contact: usize) -> &'static str
    ensures { result.now ≡ right_prefix contact }
{
    if contact % 20 == 19 { "+1777" } else { "+1555" }
}

// ---- what is said

// In the archive: an edge.
pub fn put_entry(archive: &mut String, contact: usize) -> Result<(), Memory>
    ensures { OnOk result (string_bytes archive.new ≡ string_bytes archive.old ++ entry contact) }
{
    write!(
        archive,
        r#""Person {contact:05}":{{"*h":{{"TEL":{{"+1555{contact:07}"}}}},"*t"}}"#
    )?;
    Ok(())
}

// In the left file: a row, or nothing.
pub fn put_row(left: &mut String, contact: usize) -> Result<(), Memory>
    ensures { OnOk result (string_bytes left.new ≡ string_bytes left.old ++ row contact) }
{
    if is_deleted_left(contact) {
        return Ok(());
    }
    let prefix = left_prefix(contact);
    write!(left, "Person {contact:05},{prefix}{contact:07},\n")?;
    Ok(())
}

// In the right file: a card.
pub fn put_card(right: &mut String, contact: usize) -> Result<(), Memory>
    ensures { OnOk result (string_bytes right.new ≡ string_bytes right.old ++ card contact) }
{
    write!(
        right,
        "BEGIN:VCARD\r\nVERSION:4.0\r\nFN:Person {contact:05}\r\n"
    )?;
    put_email_line(right, contact)?;
    let prefix = right_prefix(contact);
    write!(right, "TEL:{prefix}{contact:07}\r\nEND:VCARD\r\n")?;
    Ok(())
}

fn put_email_line(right: &mut String, contact: usize) -> Result<(), Memory>
    ensures { OnOk result (string_bytes right.new ≡ string_bytes right.old ++ email_line contact) }
{
    if has_email_right(contact) {
        write!(right, "EMAIL:p{contact:05}@example.org\r\n")?;
    }
    Ok(())
}
