//! Names, trees of names, and archives of what two replicas last agreed on.
//!
//! A name is a text, a tree a finite map from names to trees, and an archive a tree in which a mark may stand for what
//! the replicas don't agree about, or nothing where they never agreed (`specs/Nodes`, `specs/Archives`). Names are in
//! the order of their bytes, and so are the edges of a node and the paths of a tree. All that is said above of values
//! is said of the state that they have at each path: missing, present or marked (`specs/States`). A call that needs
//! memory answers `Memory` where there is none, and then nothing has changed. It knows no texts, no files and no
//! reconciling.
//!
//! Proved: names, trees and archives are finite maps in the order of names, and each call gives exactly what its
//! contract says of them (`Tree::insert`, `Tree::same`, `Tree::copy`, `Tree::child`, `Tree::at`, `Archive::insert`,
//! `Archive::state` and the others). `Name::in_class` tells exactly whether a name is in a class, `Name::cleaned` makes
//! line ends LF and drops the other control characters of ASCII but tab, and what is cleaned is clean; `NameSet` is a
//! finite set. The bytes of a name are UTF-8 (`Name::bytes`), and the value of a tree or an archive says so of its
//! names. `Name` is ordered as its bytes are (`Ord`).
#![tactic(auto)]

mod archive;
mod class;
mod cleaning;
mod edges;
mod folding;
mod memory;
mod merging;
mod name;
mod name_set;
mod parts;
mod path;
mod text;
mod tree;
mod within;

pub use archive::{Archive, State};
pub use class::Class;
pub use edges::{place_of, take_under};
pub use memory::Memory;
pub use name::Name;
pub use name_set::NameSet;
pub use path::Path;
pub use tree::{DEEPEST, Tree};
