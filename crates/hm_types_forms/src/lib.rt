//! What a node of a table of nodes (`hm_types_table`) stands for: all that is found on the ways down from it, which is
//! its unfolding, called its form.
//!
//! A form is what is found on each way down from a node, whatever table of nodes it is in (`specs/Forms`). Forms are
//! the same where on each way down that tidied nodes have their nodes match (`specs/SameForms`); a tree is a member of
//! a form where it stands at the node at which the form begins, and so below each of its names (`specs/Members`); and a
//! form is sound where each node on a way down is well formed, and requires both names of each twin (`specs/Sound`).
//! This crate has definitions and theorems alone.
//!
//! Proved: being the same is an equivalence of forms (`proofs/SameForms`), and sound forms that are the same have the
//! same members (`proofs/SameMembers`). The members of a form are the trees that stand at the node at which it begins
//! (`proofs/MemberNodes`), and the forms of sound nodes over sound forms are sound (`proofs/SoundForms`). Where it is
//! told whether two well formed schemas are the same, they are so exactly where the forms of their roots are
//! (`proofs/SameSchemas`).
#![tactic(auto)]
