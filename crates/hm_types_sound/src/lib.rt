//! A typed program fits: its main lens is total on its trees and its views, and meets the laws. There is no code here.
//!
//! The rules of types (`hm_types_rules`) are put together with the laws of each kind of lens (`hm_terms_laws`) and with
//! which trees stand at the nodes of its view (`hm_types_nodes`): first for each kind of lens, whose parts fit, then
//! for a body, up to a depth and for given calls, and then for a program, whose calls fall.
//!
//! Proved: a lens that goes from a form to a view fits their members, up to a depth, where the definitions that it
//! calls do (`proofs/BodyFits`); and the main lens of a typed program fits the members of its source and of its view
//! (`proofs/TypedFits`).
#![tactic(auto)]
