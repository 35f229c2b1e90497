//! Which lenses go from a source to a view: the types of lenses.
//!
//! A type is a form (`hm_types_forms`), so that no rule knows a table of nodes. For each kind of lens there is a rule
//! for when it goes from one form to another (`specs/Typing`), and, where it goes to none, the first condition that
//! isn't met (`specs/Faults`). When a program is typed over a source is `specs/Programs`, and the schema that a form is
//! written as is `specs/Numbering`. This crate has definitions and theorems alone.
//!
//! Proved: a lens goes to one view at the most (`proofs/Once`), has one fault at the most, and never both
//! (`proofs/NeverBoth`). What it goes to from a sound form is sound (`proofs/SoundGoes`). A form is written as one
//! schema (`proofs/NumberedOnce`), which has its members (`proofs/NumberedMembers`). Small forms (`proofs/Examples`)
//! and these theorems refuse the wrong definitions in its `must-fail/`.
#![tactic(auto)]
