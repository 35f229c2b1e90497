//! Small cases of the calls on lens programs and lens files, with expected values by hand.
//!
//! Proved: nothing beyond its tests, which are all that it has.
#![tactic(auto)]

#[cfg(test)]
mod cycles;
#[cfg(test)]
mod lens_files;
#[cfg(test)]
mod numbers;
#[cfg(test)]
mod outside;
#[cfg(test)]
mod parts;
#[cfg(test)]
mod sides;
#[cfg(test)]
mod terms;
