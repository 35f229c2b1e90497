//! Whether a file is another one than that of a tree, without its own tree.
ghost use Rattle.std.specs.Prelude.{IfOk, IsTrue};
ghost use Rattle.hm_schema.specs.Membership.{IsMemberTree};
ghost use Rattle.hm_marks_schema.specs.Members.{IsAt};
ghost use Rattle.hm_marks_schema.specs.Schema.{marks_schema};
ghost use Rattle.serde_json.specs.View.{view};
ghost use Rattle.hm_json_marks.specs.Seeking.{IsOtherFile, IsOtherRoot};

use crate::roots::roots_of;
use hm_json_nodes::{Kind, is_other_tree, kind_of};
use hm_marks_schema::folders_of;
use hm_tree::{Memory, Tree};
use serde_json::Value;
use std::alloc::Global;

/// Whether a document is certainly not read as a tree. It goes through its two roots up to the first difference.
pub(crate) fn differs(alloc: Global, tree: &Tree, file: &Value) -> Result<bool, Memory>
    requires { IsMemberTree marks_schema tree.now }
    ensures { IfOk result (λ other. IsTrue other → IsOtherFile tree.now (view file.now)) }
{
    let Some((bar, other)) = roots_of(file) else {
        return Ok(true);
    };
    let (bar_tree, other_tree) = folders_of(tree);
    if root_differs(alloc, bar_tree, bar)? {
        return Ok(true);
    }
    root_differs(alloc, other_tree, other)
}

// Whether a tree is certainly not that of a root.
fn root_differs(alloc: Global, tree: &Tree, root: &Value) -> Result<bool, Memory>
    requires { IsAt 1 tree.now }
    ensures { IfOk result (λ other. IsTrue other → IsOtherRoot tree.now (view root.now)) }
{
    match kind_of(root) {
        Kind::Folder(_, children) => is_other_tree(alloc, tree, children),
        Kind::Link(_, _) => Ok(true),
        Kind::Neither => Ok(true),
    }
}
