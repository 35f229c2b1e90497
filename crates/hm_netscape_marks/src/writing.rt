//! Files that are written.
ghost use Rattle.std.specs.Prelude.{◌≡◌, ◌↔◌, IfOk, Ok, IsTrue};
ghost use Rattle.hm_tree.specs.Nodes.{Tree as TreeValue};
ghost use Rattle.hm_schema.specs.Membership.{IsMemberTree};
ghost use Rattle.hm_format.specs.Answers.{Writes};
ghost use Rattle.hm_marks_schema.specs.Nesting.{marks_over};
ghost use Rattle.hm_marks_schema.specs.Schema.{marks_schema};
ghost use Rattle.hm_netscape_files.specs.Files.{NetscapeReads};
ghost use Rattle.hm_netscape_files.specs.Writing.{NetscapeWrites};

use crate::differing::differs;
use hm_format::FormatFault;
use hm_marks_schema::over_limits;
use hm_netscape_files::read_bookmarks;
use hm_netscape_writing::written_anew;
use hm_tree::{Memory, Tree};
use std::alloc::Global;

/// The file of a tree behind the file from before; `TooDeep` where the tree is over a limit.
pub(crate) fn write_file(alloc: Global, tree: &Tree, before: &[u8]) -> Result<Vec<u8>, FormatFault>
    requires member { IsMemberTree marks_schema tree.now }
    requires read { (old : TreeValue) × NetscapeReads before.now (Ok old) }
    ensures { Writes (marks_over tree.now) (NetscapeWrites tree.now before.now) result }
{
    if let Some(depth) = over_limits(tree) {
        return Err(FormatFault::TooDeep { depth });
    }
    if is_read_as(alloc, before, tree)? {
        return Ok(copied(alloc, before)?);
    }
    Ok(written_anew(alloc, before, tree)?)
}

// Whether a file that is read is read as a tree. It is read as a whole only where no difference shows before.
fn is_read_as(alloc: Global, bytes: &[u8], tree: &Tree) -> Result<bool, Memory>
    requires read { (old : TreeValue) × NetscapeReads bytes.now (Ok old) }
    requires member { IsMemberTree marks_schema tree.now }
    ensures { IfOk result (λ same. IsTrue same ↔ NetscapeReads bytes.now (Ok tree.now)) }
{
    if differs(alloc, bytes, tree)? {
        return Ok(false);
    }
    match read_bookmarks(alloc, bytes) {
        Ok(old) => Ok(old.same(tree)),
        // A file that is read has no other fault.
        Err(_) => Err(Memory),
    }
}

fn copied(alloc: Global, bytes: &[u8]) -> Result<Vec<u8>, Memory>
    ensures { IfOk result (λ copy. copy.items ≡ bytes.now) }
{
    Ok(Vec::from_slice(alloc, bytes)?)
}
