//! What is handed in to a run: the formats and the text lenses that lens files may name.
//!
//! They are boxed objects, and a run knows of them what they mean alone (`specs/Handed`). Which there are isn't known here.
//!
//! Proved: nothing is computed here.
#![tactic(auto)]

mod handed;

pub use handed::HandedIn;
