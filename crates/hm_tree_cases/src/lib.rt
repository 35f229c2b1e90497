//! Small cases of the calls on trees, schemas and their texts, with expected values by hand.
//!
//! Proved: nothing beyond its tests, which are all that it has.
#![tactic(auto)]

#[cfg(test)]
mod faults;
#[cfg(test)]
mod graphs;
#[cfg(test)]
mod node_lines;
#[cfg(test)]
mod reduced;
#[cfg(test)]
mod reports;
#[cfg(test)]
mod sameness;
#[cfg(test)]
mod schemas;
#[cfg(test)]
mod setting;
#[cfg(test)]
mod trees;
#[cfg(test)]
mod vertices;
