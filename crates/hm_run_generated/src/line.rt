//! The line of a run of made-up files.
ghost use Rattle.std.specs.Prelude.{◌≡◌, IfOk, length};
ghost use Rattle.hm_run_generated.specs.Generating.{numbers_line};

use hm_run_sync::Summary;
use hm_tree::Memory;
use std::alloc::Global;

/// The line of so many contacts: the numbers of keys in the two new views, and of conflicts.
pub fn numbers_line(alloc: Global, number: usize, summary: &Summary) -> Result<Vec<u8>, Memory>
    ensures { IfOk result (λ line. line.items ≡ numbers_line number summary.now.left summary.now.right (length summary.now.conflicts.items)) }
{
    let left = summary.left;
    let right = summary.right;
    let conflicts = summary.conflicts.len();
    let line = format!(in alloc;
        "gen {number}: left {left} right {right} conflicts {conflicts}\n"
    )?;
    Ok(line.into_bytes())
}
