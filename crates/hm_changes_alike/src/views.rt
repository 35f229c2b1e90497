//! The views of a side, and what they have at a path.
ghost use Rattle.std.specs.Prelude.{◌≡◌, Some, option_copied};
ghost use Rattle.hm_tree.specs.States.{at_path};
ghost use Rattle.hm_changes_alike.specs.Staying.{seen, both_at, edges_shown, is_turned, turns_at};

use hm_tree::{Name, Tree};

/// The old view of a side, and the new one.
#[derive(Clone, Copy)]
pub struct Views<'a> {
    pub old: &'a Tree,
    pub new: &'a Tree,
}

// The subtree at a path; none where nothing stands there.
#[tactic(auto, using(hm_tree::proofs::Paths::tree_steps))]
fn tree_at<'a>(tree: &'a Tree, path: &[Name]) -> Option<&'a Tree>
    ensures { option_copied result ≡ at_path (Some tree.now) path.now }
{
    let mut here = tree;
    for name in path {
        match here.child(name) {
            Some(child) => here = child,
            None => return None,
        }
    }
    Some(here)
}

/// What both views have at a path; none where one of them lacks it.
pub fn views_at<'a>(views: Views<'a>, path: &[Name]) -> Option<Views<'a>>
    ensures { seen result ≡ both_at (at_path (Some views.entry.old.now) path.now) (at_path (Some views.entry.new.now) path.now) }
{
    match (tree_at(views.old, path), tree_at(views.new, path)) {
        (Some(old), Some(new)) => Some(Views { old, new }),
        _ => None,
    }
}

/// The edges of the old view, at a path that both views have; none elsewhere.
pub fn edges_shown<'a>(views: Option<Views<'a>>) -> &'a [(Name, Tree)]
    ensures { result.now ≡ edges_shown (seen views.entry) }
{
    match views {
        Some(views) => views.old.edges(),
        None => &[],
    }
}

// Whether one of two has something, and the other nothing.
fn is_turned(old: Option<&Tree>, new: Option<&Tree>) -> bool
    ensures { result ≡ is_turned (option_copied old.entry) (option_copied new.entry) }
{
    match (old, new) {
        (Some(_), None) | (None, Some(_)) => true,
        (Some(_), Some(_)) | (None, None) => false,
    }
}

/// Whether a name comes or goes below a path that both views have; it doesn't elsewhere.
pub fn turns_at(views: Option<Views<'_>>, name: &Name) -> bool
    ensures { result ≡ turns_at (seen views.entry) name.now }
{
    match views {
        Some(views) => is_turned(views.old.child(name), views.new.child(name)),
        None => false,
    }
}
