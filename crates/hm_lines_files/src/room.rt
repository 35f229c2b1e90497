//! Room for the lines of a component.
ghost use Rattle.std.specs.Prelude.{◌≡◌, [], IfOk};

use hm_lines_cards::Line;
use hm_tree::Memory;
use std::alloc::Global;

/// No lines, with room for as many as stand before the first that is a certain one, without regard to case.
pub fn room_for<'a>(alloc: Global, lines: &[&str], end: &str) -> Result<Vec<Line<'a>>, Memory>
    ensures { IfOk result (λ made. made.items ≡ []) }
{
    Ok(Vec::with_capacity(alloc, count_before(lines, end))?)
}

// How many lines stand before it.
fn count_before(lines: &[&str], end: &str) -> usize {
    for place in 0..lines.len() {
        if lines[place].eq_ignore_ascii_case(end) {
            return place;
        }
    }
    lines.len()
}
