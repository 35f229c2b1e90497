//! The lines of nodes, which schema files and lens files have alike.
//!
//! ```text
//! skipped  = *" "  /  "#" and whatever follows
//! node     = "node" gap word
//! edge     = "  edge" gap edgename gap word
//! other    = "  other" gap class gap word
//! shape    = "  shape" *( gap edgename ) [ gap "?" *( gap edgename ) ] [ gap "+" gap number ".." [ number ] ]
//! gap      = 1*" "
//! word     = 1*( "A" to "Z" / "a" to "z" / "0" to "9" / "_" / "-" / "." / "*" )
//! edgename = word / name                         name: as `hm_tree_spelling::append_spelled` spells it
//! class    = "any" / "clean" / "filled" / "trimmed" / "folded"
//! number   = decimal, without leading zeros, below 2 to the power of 64
//! ```
//!
//! Each stands on a line of its own, and the lines up to the next `node` are of the node. Each line is read by itself,
//! as an entry (`entry`); one that is neither skipped nor of this grammar is unknown here, and the file has to know it.
//! A file walks through its entries with the counts of what stands before (`Before`) and of what the node holds
//! (`Section`), by which a line is judged in constant time for each of its tokens (`judge`). Where none is bad, the
//! entries describe nodes, in the order of their lines, and the node `Empty` behind them where a line of the file names
//! it (`build`). What else a file says is unknown here, but for the names of nodes that the file hands in. It knows no
//! trees.
//!
//! Proved: `read_tokens`, `read_node_line` and `read_entries` read each line of a file exactly as it is defined;
//! `is_bad_line` tells exactly whether a line of a node is bad (`specs/BadLines`); where none is, `build_nodes` gives
//! the nodes that the lines describe (`specs/Nodes`), and `node_of` the place of one. They are well formed and without
//! twins (`proofs/WellFormed`), and there are no others (`proofs/Declared`).
#![tactic(auto)]

mod before;
mod build;
mod count;
mod entry;
mod firsts;
mod judge;
mod node_line;
mod section;
mod token;

pub use before::{Before, is_counted};
pub use build::{build_nodes, is_empty_named, node_of};
pub use count::Count;
pub use entry::{Entry, read_entries, read_entry};
pub use firsts::{begun, first_place, is_first, keep_first};
pub use judge::{Line, declared_nodes, has_double, is_bad_line, is_node};
pub use node_line::{NodeLine, ShapeLine, is_word, read_node_line};
pub use section::{Section, read_section, section_at};
pub use token::{Token, behind, first_quoted, first_word, gap_length, lone_word, read_tokens};
