//! Names below one parent that are probably one thing under several, of which one at least comes or goes.
//!
//! Each of two sides has an old view and a new one, and a program tells which paths come and go on it (`hm_changes`).
//! This crate looks below the parents of those paths and nowhere else. The names that the old views of both sides have
//! there are compared, those of a side only where its new view has the parent too (`views`, `shown`). Names that are alike
//! (`hm_alike`) are one set, which is told where one of them comes or goes on a side (`alikes`). Parents are sorted and
//! taken once each (`parents`), and the edges below a parent are gone through name by name; only names that are alike to
//! others are looked up.
//!
//! Proved: `alikes_of` tells each such set and no other, in the order of their parents, and below one parent in the order
//! of their first names (`specs/Alikes`).
#![tactic(auto)]

mod alikes;
mod parents;
mod shown;
#[cfg(test)]
mod tests;
mod views;

pub use alikes::{AlikeNames, alikes_of};
pub use views::Views;
