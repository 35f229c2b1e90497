//! Whether a program of lenses is typed over a schema.
//!
//! A program is typed where there is each text lens that it names, no definition of it is in a bad cycle, each
//! definition goes from its declared source to a view that is the same as its declared one, and the main lens goes from
//! the schema to a view without twins (`hm_types_rules`). What `check` answers is `specs/Checks`: a typed program with
//! its view, on whose trees the main lens is total and lawful, or the first condition that isn't met. No other fault is
//! told of a typed program than want of memory (`proofs/Exactly`), and a program has one answer at the most
//! (`proofs/Once`). Its text lenses are looked up first, then its cycles, and then definitions and the main lens are
//! checked in their order (`checking`), each by `hm_types_terms`. No contract of it knows the table.
//!
//! Proved: `check` answers Ok exactly where a program is typed over a schema. Then the view is written as one schema by
//! numbers, and the main lens fits: on the trees of the schema and of the view it is total and lawful, so that no get
//! and no put of an accepted program fails but for want of memory, what is put is what is shown, and what isn't shown
//! is kept, also where definitions call themselves, and with whatever lawful text lenses were handed in. Otherwise it
//! tells the first condition that isn't met: a text lens that isn't there, by its name; a bad cycle, by the
//! definition's name; a lens, by the number of its definition, its own and that of its rule; or twins that are left.
#![tactic(auto)]

mod checking;
mod declaring;
mod unknown;

pub use checking::check;
pub use hm_types_terms::TypeFault;
