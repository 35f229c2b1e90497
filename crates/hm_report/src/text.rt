//! How conflicts are said: each in one line, and their number in the last.
ghost use Rattle.std.specs.Prelude.{◌≡◌, ◌++◌, ◌∷◌, IfOk, OnOk, codes, flat_map};
ghost use Rattle.std.specs.Fmt.{decimal};
ghost use Rattle.hm_tree_text.specs.Text.{text as text_of, whole};
ghost use Rattle.hm_report.specs.Text.{over_empty, set_text, why_text, conflict_line, number_line, line_feed, report_text};

use crate::conflict::{Conflict, Why};
use hm_tree::{Memory, Name, NameSet};
use hm_tree_spelling::{append_path, append_spelled};
use std::alloc::Global;

/// The report of these conflicts: a line for each, in their order, and one with their number.
pub fn write_report(alloc: Global, conflicts: &[Conflict]) -> Result<Vec<u8>, Memory>
    ensures { IfOk result (λ report. report.items ≡ report_text conflicts.now) }
{
    let mut report = Vec::new(alloc);
    put_conflicts(&mut report, conflicts)?;
    put_last_line(alloc, &mut report, conflicts.len())?;
    Ok(report)
}

/// Puts a line for each of the conflicts, in their order, behind a report.
pub fn put_conflicts(report: &mut Vec<u8>, conflicts: &[Conflict]) -> Result<(), Memory>
    ensures { OnOk result (report.new.items ≡ report.old.items ++ flat_map conflict_line conflicts.now) }
{
    for conflict in conflicts {
        put_conflict(report, conflict)?;
    }
    Ok(())
}

/// The last line of a report alone, by the number of its conflicts.
pub fn write_last_line(alloc: Global, number: usize) -> Result<Vec<u8>, Memory>
    ensures { IfOk result (λ line. line.items ≡ number_line number) }
{
    let mut line = Vec::new(alloc);
    put_last_line(alloc, &mut line, number)?;
    Ok(line)
}

// Puts the line of a conflict behind a report.
fn put_conflict(report: &mut Vec<u8>, conflict: &Conflict) -> Result<(), Memory>
    ensures { OnOk result (report.new.items ≡ report.old.items ++ conflict_line conflict.now) }
{
    report.extend_from_slice(b"conflict ")?;
    append_path(&conflict.path, report)?;
    report.push(b' ')?;
    put_why(report, &conflict.why)?;
    report.push(b'\n')?;
    Ok(())
}

// Puts why there is a conflict behind a report.
fn put_why(report: &mut Vec<u8>, why: &Why) -> Result<(), Memory>
    ensures { OnOk result (report.new.items ≡ report.old.items ++ why_text why.now) }
{
    match why {
        Why::Earlier => Ok(report.extend_from_slice(b"earlier")?),
        Why::Lost { kept } => {
            report.extend_from_slice(b"lost ")?;
            append_path(kept, report)
        }
        Why::Names { left, right } => {
            report.extend_from_slice(b"names ")?;
            put_set(report, left)?;
            report.push(b' ')?;
            put_set(report, right)
        }
    }
}

// Puts a set of names, between braces, behind a report.
fn put_set(report: &mut Vec<u8>, names: &NameSet) -> Result<(), Memory>
    ensures { OnOk result (report.new.items ≡ report.old.items ++ set_text names.now) }
{
    match names.names() {
        [] => Ok(report.extend_from_slice(b"{}")?),
        [first, others @ ..] => put_names(report, first, others),
    }
}

// The same of names, in ascending order, of which there is one at least.
fn put_names(report: &mut Vec<u8>, first: &Name, others: &[Name]) -> Result<(), Memory>
    ensures { OnOk result (report.new.items ≡ report.old.items ++ text_of whole (over_empty (first.now ∷ others.now))) }
{
    report.push(b'{')?;
    append_spelled(first, report)?;
    for name in others {
        report.push(b',')?;
        append_spelled(name, report)?;
    }
    report.push(b'}')?;
    Ok(())
}

/// Puts the last line, with the number of conflicts, behind a report.
pub fn put_last_line(alloc: Global, report: &mut Vec<u8>, number: usize) -> Result<(), Memory>
    ensures { OnOk result (report.new.items ≡ report.old.items ++ number_line number) }
{
    match number {
        0 => Ok(report.extend_from_slice(b"agreed\n")?),
        _ => put_number(alloc, report, number),
    }
}

// The same where there is one at least.
fn put_number(alloc: Global, report: &mut Vec<u8>, number: usize) -> Result<(), Memory>
    ensures { OnOk result (report.new.items ≡ report.old.items ++ (codes "conflicts " ++ (decimal number ++ line_feed))) }
{
    let digits = format!(in alloc; "{number}")?;
    report.extend_from_slice(b"conflicts ")?;
    report.extend_from_slice(digits.as_bytes())?;
    report.push(b'\n')?;
    Ok(())
}
