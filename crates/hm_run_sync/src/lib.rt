//! What a synchronisation makes of the bytes of six files: the new files and what may be told of them, or the first stop.
//!
//! What is to come of six files is a relation (`specs/Verdict`), put together from what each step finds (`specs/Reads`):
//! the first refusal in the order of the checks, or a plan. `plan` reads the files, each replica through the side of its
//! lens file (`read`), reconciles what they show (`make`), and gives the new files in the order in which they are
//! measured and written (`closing`). It touches no store; whether they are written, and what is said, is up to the
//! command.
//!
//! Proved: `plan` makes the new files of the bytes of six files, with the conflicts that remain and the numbers of edges
//! of the new views, or tells the first stop, as the relation says; it reads them (`read_all`), and makes the new files of
//! what was read (`plan_of`). What the six files are read as is `specs/Reads`,
//! each lens file as a side and each replica through its side; what is to be done with them, step by step, is
//! `specs/Verdict`. There is one plan at the most (`proofs/Once`).
#![tactic(auto)]

mod closing;
mod make;
mod read;

pub use closing::Summary;
pub use make::{WrittenFiles, plan, plan_of};
pub use read::{Inputs, ReplicaPair, SidePair, read_all};
