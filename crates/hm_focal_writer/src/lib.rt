//! Writes the programs of lens files as the files that `hm_focal` reads.
//!
//! A file is its header, its format with its options, the lines of its nodes, its lenses and its main lens, in this
//! order and each on a line of its own; one space stands between two tokens, names of edges stand between quotes, and
//! there are no comments (`specs/Writing`). It stands apart because no run of the program writes any: lens files are
//! written by what makes them, and by tests.
//!
//! Proved: `write_lens` writes the program of a lens file in one form, which is a file of this program where no text of
//! a lens in it is over a limit.
#![tactic(auto)]

mod writer;

pub use writer::write_lens;
