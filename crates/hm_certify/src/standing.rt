//! What stands at a path in an archive and two sides.
ghost use Rattle.std.specs.Prelude.{◌≡◌, ◌↔◌, [], ◌∷◌, IsTrue, Some, None, option_copied};
ghost use Rattle.hm_tree.specs.States.{at_path, IsWithin};
ghost use Rattle.hm_certify.specs.Standing.{archive_or_none, trio_of};
ghost use Rattle.hm_certify.specs.Steps.{step};

use hm_tree::{Archive, Name, State, Tree};

/// An archive and two sides at one path, where any of them may be missing.
#[derive(Clone, Copy)]
pub struct Standing<'a> {
    pub archive: Option<&'a Archive>,
    pub left: Option<&'a Tree>,
    pub right: Option<&'a Tree>,
}

/// What an archive has under a name: a mark under each name of a mark.
pub fn archive_child<'a>(archive: Option<&'a Archive>, name: &Name) -> Option<&'a Archive>
    ensures { archive_or_none (option_copied result) ≡ at_path (archive_or_none (option_copied archive.entry)) (name.now ∷ []) }
{
    let archive = archive?;
    match archive.root() {
        State::Marked => Some(archive),
        _ => archive.child(name),
    }
}

/// What a side has under a name.
#[tactic(auto, using(crate::proofs::Steps::tree_child))]
pub fn side_child<'a>(side: Option<&'a Tree>, name: &Name) -> Option<&'a Tree>
    ensures { option_copied result ≡ at_path (option_copied side.entry) (name.now ∷ []) }
{
    match side {
        Some(tree) => tree.child(name),
        None => None,
    }
}

impl<'a> Standing<'a> {
    /// What stands under a name.
    pub fn child(self, name: &Name) -> Standing<'a>
        ensures { trio_of result ≡ step name.now (trio_of self.entry) }
    {
        Standing {
            archive: archive_child(self.archive, name),
            left: side_child(self.left, name),
            right: side_child(self.right, name),
        }
    }
}

/// Whether an archive is missing.
pub fn is_missing(archive: Option<&Archive>) -> bool
    ensures { IsTrue result ↔ (archive_or_none (option_copied archive.entry) ≡ None) }
{
    match archive {
        Some(archive) => matches!(archive.root(), State::Missing),
        None => true,
    }
}

/// Whether an archive is present at every path of a tree.
pub fn is_within(tree: &Tree, archive: Option<&Archive>) -> bool
    ensures { IsTrue result ↔ IsWithin (Some tree.now) (archive_or_none (option_copied archive.entry)) }
{
    match archive {
        Some(archive) => tree.within(archive),
        None => false,
    }
}

/// Whether two sides are equal.
pub fn are_same(one: Option<&Tree>, other: Option<&Tree>) -> bool
    ensures { IsTrue result ↔ (option_copied one.entry ≡ option_copied other.entry) }
{
    match (one, other) {
        (Some(one), Some(other)) => one.same(other),
        (None, None) => true,
        _ => false,
    }
}
