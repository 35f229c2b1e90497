//! What a run says of the conflicts that remain.
ghost use Rattle.std.specs.Prelude.{◌≡◌, IfOk, length};
ghost use Rattle.hm_run_sync.specs.Verdict.{conflicts_status, said};

use hm_report::{Conflict, write_last_line, write_report};
use hm_run_words::Output;
use hm_tree::Memory;
use std::alloc::Global;

fn said(alloc: Global, quiet: bool, conflicts: &[Conflict]) -> Result<Vec<u8>, Memory>
    ensures { IfOk result (λ text. text.items ≡ said quiet conflicts.now) }
{
    if quiet {
        return write_last_line(alloc, conflicts.len());
    }
    write_report(alloc, conflicts)
}

/// The status and the text of a run over which these conflicts remain; of a quiet one the last line alone.
pub fn output_of(alloc: Global, quiet: bool, conflicts: &[Conflict]) -> Result<Output, Memory>
    ensures status { IfOk result (λ output. output.status ≡ conflicts_status (length conflicts.now)) }
    ensures text { IfOk result (λ output. output.text.items ≡ said quiet conflicts.now) }
{
    let text = said(alloc, quiet, conflicts)?;
    Ok(Output {
        status: u8::from(conflicts.len() > 0),
        text,
    })
}
