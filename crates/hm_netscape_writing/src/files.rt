//! Writing a file anew.
ghost use Rattle.std.specs.Prelude.{◌≡◌, None, IfOk};
ghost use Rattle.hm_schema.specs.Membership.{IsMemberTree};
ghost use Rattle.hm_marks_schema.specs.Schema.{marks_schema};
ghost use Rattle.hm_marks_schema.specs.Nesting.{marks_over};
ghost use Rattle.hm_marks_tokens.specs.Grammar.{Contents};
ghost use Rattle.hm_netscape_files.specs.Files.{IsFile};
ghost use Rattle.hm_netscape_files.specs.Writing.{IsWrittenAnew};

use crate::outermost::add_outermost;
use hm_netscape_entries::list_inside;
use hm_netscape_files::head_len;
use hm_tree::{Memory, Tree};
use std::alloc::Global;

/// What is written of a tree behind a file from before, whose bytes these are.
pub fn written_anew(alloc: Global, before: &[u8], tree: &Tree) -> Result<Vec<u8>, Memory>
    requires file { (old : Contents) × IsFile before.now old }
    requires tree { IsMemberTree marks_schema tree.now }
    requires within { marks_over tree.now ≡ None }
    ensures { IfOk result (λ after. IsWrittenAnew tree.now before.now after.items) }
{
    let Some(len) = head_len(before) else {
        unreachable!();
    };
    let (head, list) = before.split_at(len);
    let mut after = Vec::with_capacity(alloc, before.len())?;
    after.extend_from_slice(head)?;
    after.extend_from_slice(b"<DL><p>\n")?;
    let tail = add_outermost(alloc, &mut after, list_inside(list), tree)?;
    after.extend_from_slice(b"</DL>")?;
    after.extend_from_slice(tail)?;
    Ok(after)
}
