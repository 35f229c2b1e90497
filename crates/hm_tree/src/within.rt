//! Trees within archives.
ghost use Rattle.std.specs.Prelude.{◌↔◌, IsTrue, Some};
ghost use Rattle.hm_tree.specs.States.{IsWithin};

use crate::archive::{Archive, State};
use crate::tree::Tree;

impl Tree {
    /// Whether an archive is present at every path of the tree.
    #[tactic(auto, using(crate::proofs::Depths::falling))]
    pub fn within(&self, archive: &Archive) -> bool
        ensures { IsTrue result ↔ IsWithin (Some self.now) archive.now }
    {
        let State::Present = archive.root() else {
            return false;
        };
        // The names of both rise: the next is looked for first behind the one found last.
        let mut behind = 0;
        for place in 0..self.count() {
            let (name, child) = self.edge(place);
            let Some((there, next)) = archive.child_near(name, behind) else {
                return false;
            };
            if !child.within(there) {
                return false;
            }
            behind = next;
        }
        true
    }
}
