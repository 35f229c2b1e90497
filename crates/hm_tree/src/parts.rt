//! Trees in two parts, and as one.
ghost use Rattle.std.specs.Prelude.{IfOk};
ghost use Rattle.hm_tree.specs.Parts.{IsSplit, AreApart, Joins};

use crate::memory::Memory;
use crate::merging::merge;
use crate::name_set::{NameSet, has_from};
use crate::tree::Tree;

impl Tree {
    /// The edges with a name in a set, and the others.
    pub fn split(&self, names: &NameSet) -> Result<(Tree, Tree), Memory>
        ensures { IfOk result (IsSplit names.now self.now) }
    {
        self.copy()?.into_parts(names)
    }

    /// The same of a tree that is given, whose edges are moved.
    pub fn into_parts(self, names: &NameSet) -> Result<(Tree, Tree), Memory>
        ensures { IfOk result (IsSplit names.now self) }
    {
        let alloc = self.allocator();
        let mut inside = Vec::new(alloc);
        let mut outside = Vec::new(alloc);
        let walk = names.names();
        let mut at = 0;
        for edge in self.into_edges() {
            if has_from(walk, &mut at, &edge.0) {
                inside.push(edge)?;
            } else {
                outside.push(edge)?;
            }
        }
        Ok((Tree::of_edges(inside)?, Tree::of_edges(outside)?))
    }

    /// All edges of two trees, which have no common name.
    pub fn join(one: Tree, two: Tree) -> Result<Tree, Memory>
        requires { AreApart one two }
        ensures { IfOk result (Joins one two) }
    {
        Tree::of_edges(merge(one.into_edges(), two.into_edges())?)
    }
}
