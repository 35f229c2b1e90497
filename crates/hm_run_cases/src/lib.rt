//! Small cases of whole runs with formats that no file can name, with expected values by hand.
//!
//! Proved: nothing beyond its tests, which are all that it has.
#![tactic(auto)]

#[cfg(test)]
mod forgetful;
