//! Whether a lens is typed at a node of a table that grows.
//!
//! The lenses of a definition are numbered (`specs/Numbers`), and each is checked at a node (`specs/Courses`): it goes
//! from there to a node, whatever the definitions that it calls do, or a condition isn't met. `check_body` checks the
//! body of a definition, and `view_of` gives the node of the views of a main lens. There is a function for each kind of
//! lens that has lenses inside (`typing`); what was found before is found again by the place of a lens, or of the first
//! that is equal to it (`alike`), and its node (`memo`). What is found is said of the forms that nodes stand for. It
//! knows no trees but those of constant lenses.
//!
//! Proved: `check_body` and `view_of` give the node of the views of a lens at a node of a table, or the first lens in
//! it, in their numbering, whose condition isn't met (`specs/Courses`, `specs/Bodies`).
#![tactic(auto)]

mod alike;
mod body;
mod course;
mod fault;
mod leaves;
mod memo;
mod numbers;
mod over;
mod part;
mod texts;
mod typing;
mod unmet;

pub use body::{check_body, view_of};
pub use fault::TypeFault;
pub use part::{Part, first_copy, parts};
pub use texts::{TextType, classes_named, text_types};
