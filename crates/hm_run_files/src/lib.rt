//! The files of a run: which there are, and loading, measuring and writing them in their order.
//!
//! A run goes over a list of files, each in its slot: all are loaded, the new ones are measured, and then they are
//! written. So what is found of a file is said once, as a function of its slot and of what the store holds
//! (`specs/Files`), and each loop says which file of its list it stopped at. Every step of a run has one form of
//! contract, `Did` in `specs/Steps`: it found what it finds, it was refused for a file, it met a fault of the store
//! with its cause, or it had no memory. `slot` has the slots and their limit, and `stop` what may stop a run. What the
//! bytes mean isn't known here.
//!
//! Proved: the files of a list are loaded, measured and written in its order: `load_all`, `measure_all` and `write_all`
//! each give what the store holds, or stop at the first file that is refused or fails, with its cause, and say what
//! they leave.
#![tactic(auto)]

mod load;
mod measure;
mod slot;
mod stop;
mod write;

pub use load::load_all;
pub use measure::measure_all;
pub use slot::{LIMIT, Named, NewFile, Slot};
pub use stop::{ArchiveFault, FileFault, Refusal, ReplicaFault, Stop};
pub use write::write_all;
