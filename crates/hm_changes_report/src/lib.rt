//! What a synchronisation would change, said line by line.
//!
//! ```text
//! changes = [ "first run" LF ] *( change ) *( alike ) *( conflict ) *2( numbers ) last
//! change  = side SP ( "+" / "-" ) SP path LF
//! alike   = "alike" 2*( SP side SP path ) LF
//! numbers = side ": " number " added, " number " deleted; "
//!           number " entries: " number " added, " number " deleted, " number " changed" LF
//! side    = "A" / "B"
//! ```
//!
//! The lines of conflicts and the last line are those of a report (`hm_report`), and paths are spelled as there. Of names
//! that are alike (`hm_changes_alike`) each stands behind the side that shows it before the run, A where both do. The
//! numbers of a side stand where it has a change: first those of its changes, and behind the semicolon those of entries,
//! the children of the root: how many there are before the run, how many come and go, and in how many of the others
//! a path comes or goes below.
//!
//! Proved: `write_changes` gives the text of the changes of both sides, of the names that are alike and of the conflicts
//! that remain (`specs/Text`).
#![tactic(auto)]

mod text;

pub use text::{Changes, write_changes};
