//! Laws of the schema of bookmarks.
ghost use Rattle.std.specs.Prelude.{◌↔◌};
ghost use Rattle.hm_tree.specs.Nodes.{Tree};
ghost use Rattle.hm_schema.specs.Membership.{HasNoTwins, IsMemberTree};
ghost use Rattle.hm_marks_schema.specs.Schema.{marks_schema};
ghost use Rattle.hm_marks_schema.specs.Members.{IsAt, HasFolders, IsFolderOf, IsItemOf, HasAddress};

/// A member of the schema has two folders; a folder has lists of items, an item is a folder or a link, and a link is an
/// address. No node has twins.
#[tactic(auto, using(crate::proofs::Schemas::no_twins))]
pub fn members_are_told()
    ensures files { (t : Tree) → IsMemberTree marks_schema t ↔ HasFolders (IsAt 1) t }
    ensures folders { (t : Tree) → IsAt 1 t ↔ IsFolderOf (IsAt 3) t }
    ensures items { (t : Tree) → IsAt 3 t ↔ IsItemOf (IsAt 1) (IsAt 4) t }
    ensures links { (t : Tree) → IsAt 4 t ↔ HasAddress t }
    ensures no_twins { HasNoTwins marks_schema }
{}
