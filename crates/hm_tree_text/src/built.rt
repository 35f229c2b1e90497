//! What is read: a tree or an archive, node by node.
ghost use Rattle.std.specs.Prelude.{◌≡◌, Bool, true, false, IfOk, Some, MatchOption};
ghost use Rattle.hm_tree.specs.Archives.{Archive as ArchiveValue, recorded};
ghost use Rattle.hm_tree.specs.Nodes.{empty, marked, node};
ghost use Rattle.hm_tree_text.specs.Pending.{valued_edges, MakeNode};

use hm_tree::{Archive, Memory, Name, Tree};
use std::alloc::Global;

// What is read.
pub trait Built: Drop {
    // whether marks may stand in it
    ghost marks: { Bool };

    // the archive that it is, or that is recorded of it
    ghost value: { Self → ArchiveValue };

    fn empty(alloc: Global) -> Self
        ensures { value result ≡ Some empty };

    fn mark(alloc: Global) -> Option<Self>
        ensures { MatchOption result (marks ≡ false) (λ mark. (marks ≡ true) × (value mark ≡ Some marked)) };

    // The node with these edges.
    fn of_edges(edges: Vec<(Name, Self)>) -> Result<Self, Memory>
        requires { MakeNode value edges.items }
        ensures { IfOk result (λ built. value built ≡ Some (node (valued_edges value edges.items))) };
}

impl Built for Tree {
    ghost marks = { false };

    ghost value = { λ t. Some (recorded t) };

    fn empty(alloc: Global) -> Tree {
        Tree::empty(alloc)
    }

    fn mark(_alloc: Global) -> Option<Tree> {
        None
    }

    fn of_edges(edges: Vec<(Name, Tree)>) -> Result<Tree, Memory>
        requires { MakeNode (λ t. Some (recorded t)) edges.items }
        ensures { IfOk result (λ built. Some (recorded built) ≡ Some (node (valued_edges (λ t. Some (recorded t)) edges.items))) }
    {
        Tree::of_edges(edges)
    }
}

impl Built for Archive {
    ghost marks = { true };

    ghost value = { λ o. o };

    fn empty(alloc: Global) -> Archive {
        Archive::present(alloc)
    }

    fn mark(alloc: Global) -> Option<Archive> {
        Some(Archive::marked(alloc))
    }

    fn of_edges(edges: Vec<(Name, Archive)>) -> Result<Archive, Memory>
        requires { MakeNode (λ o. o) edges.items }
        ensures { IfOk result (λ built. built ≡ Some (node (valued_edges (λ o. o) edges.items))) }
    {
        Ok(Archive::of_edges(edges))
    }
}
