//! What a line of a calendar is.
ghost use Rattle.std.specs.Prelude.{◌≡◌, ◌<◌, ◌++◌, IsTrue, MatchOption, Some, drop, false, length, true};
ghost use Rattle.hm_lines_cards.specs.Lines.{HasParts};
ghost use Rattle.hm_lines_files.specs.Components.{Bytes};
ghost use Rattle.hm_ical.specs.Lines as spec;
ghost use Rattle.hm_ical.specs.Scanning.{Kind, IsKind, ends_in_colon};
ghost use Rattle.hm_ical.specs.Lent.{kind_of};

use hm_lines::{LineParts, parts};
use hm_lines_cards::is_named;

/// What a line of a calendar is.
#[derive(Clone, Copy)]
pub(crate) enum LineKind<'a> {
    /// It begins a component of this name.
    Begin(&'a str),
    /// It ends one of this name.
    End(&'a str),
    /// It's a property with these parts.
    Property(LineParts),
}

/// What a line is; nothing where it can stand in no calendar.
pub(crate) fn kind_of<'a>(line: &'a str) -> Option<LineKind<'a>>
    ensures { MatchOption result ((kind : Kind) → ¬ (IsKind line.now kind)) (λ kind. IsKind line.now (kind_of kind)) }
{
    if let Some(name) = behind(line, "BEGIN:") {
        return Some(LineKind::Begin(name));
    }
    if let Some(name) = behind(line, "END:") {
        return Some(LineKind::End(name));
    }
    match parts(line) {
        Some(parts) if !is_barred(line, parts) => Some(LineKind::Property(parts)),
        _ => None,
    }
}

// What stands behind a front without regard to case.
fn behind<'a>(line: &'a str, front: &str) -> Option<&'a str>
    requires { IsTrue (ends_in_colon front.now) }
    ensures { MatchOption result ((rest : Bytes) → spec.is_same line.now (front.now ++ rest) ≡ false) (λ rest. (spec.is_same line.now (front.now ++ rest.now) ≡ true) × (rest.now ≡ drop (length front.now) line.now)) }
{
    match line.split_at_checked(front.len()) {
        Some((start, rest)) if is_same(start, front) => Some(rest),
        _ => None,
    }
}

/// Whether names are the same, without regard to case.
pub(crate) fn is_same(one: &str, another: &str) -> bool
    ensures { result ≡ spec.is_same one.now another.now }
{
    one.eq_ignore_ascii_case(another)
}

// Whether a content line is no property of a calendar.
fn is_barred(line: &str, parts: LineParts) -> bool
    requires { HasParts line.now (Some parts) }
    ensures { result ≡ spec.is_barred line.now parts }
{
    if is_named(line, parts, "BEGIN") || is_named(line, parts, "END") {
        return true;
    }
    is_named(line, parts, "VERSION") && !is_bare(parts)
}

// Whether a content line has no group and no parameters.
fn is_bare(parts: LineParts) -> bool
    requires { parts.name_to < parts.value_from }
    ensures { result ≡ spec.is_bare parts }
{
    parts.name_from == 0 && parts.value_from - parts.name_to == 1
}
