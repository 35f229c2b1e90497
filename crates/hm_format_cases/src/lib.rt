//! Small cases of calls of what formats are made of, which no file of a format shows, with expected values by hand.
//!
//! Proved: nothing beyond its tests, which are all that it has.
#![tactic(auto)]

#[cfg(test)]
mod content_lines;
#[cfg(test)]
mod formats;
#[cfg(test)]
mod item_trees;
#[cfg(test)]
mod setting;
