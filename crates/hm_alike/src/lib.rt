//! Which names of a list are probably one thing under two names.
//!
//! Two names are alike where nothing is left between them but case, spaces at the ends or doubled, and Unicode normal
//! form. A name is folded for that: its key of a caseless match under compatibility (The Unicode Standard, section
//! 3.13), from which spaces at the ends are dropped and each run of spaces is made one. Names with one folded name are
//! alike (`specs/Alike`). It tells no more than that: what is to be done with such names it leaves to others.
//!
//! Proved: `fold` gives exactly the folded name of a name, and `classes` exactly the classes of the names that are
//! alike, each of two names at least and in the order of the names, the classes in the order of their first names.
//! Neither gives anything else, but for want of memory. Some names that are alike, and some that aren't, are computed
//! from the definitions (`proofs/Cases`).
#![tactic(auto)]

mod alike;
mod folding;
mod groups;
mod squeezing;
#[cfg(test)]
mod tests;

pub use alike::classes;
pub use folding::fold;
