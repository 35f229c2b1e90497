//! The sides of a run: for each replica a lens file, by which the replica is read and written.
//!
//! A lens file names a format (`formats`) and has a program of lenses. It is opened as a side where it is read, the
//! format is one of those that are handed in, its options are those of the format, and its program is typed over the
//! schema that the format gives; else it is refused for the first of these that isn't so (`opening`, `specs/Sides`),
//! which is told as what stops a run (`stops`). What is handed in are boxed formats and text lenses, known by what they
//! mean; a format is told by its place among them. Which there are isn't known here, but for the words of formats and
//! their tags.
//!
//! The view of a side is compared with a schema (`views`), and on a side the replica's file is opened, and closed with
//! a new view (`replicas`, `specs/SideReplicas`).
//!
//! Proved: `open_side` gives what a run needs of a lens file: its program, the format that its format word names, the
//! first of equal tags, and the schemas of its trees and of its views; or it tells the first that is wrong: the text of
//! the file, its format word, its options, or its lenses (`specs/Sides`). `check_view` tells whether the view is the
//! same as a schema; `open_replica`, `close_replica` and `close_base` read a file and write it by what was opened
//! (`specs/SideReplicas`). Each of them has one answer (`proofs/Laws`).
#![tactic(auto)]

mod formats;
mod opening;
mod replicas;
mod side;
mod stops;
mod views;

pub use opening::open_side;
pub use replicas::{close_base, close_replica, open_replica};
pub use side::Side;
pub use views::check_view;
