//! One run of the program: what the words ask for is carried out, and the run says how it ended.
//!
//! `run` finds what the words mean (`hm_run_words`) and does the steps that all commands share (`acting`): the files of
//! the request are loaded, what they come to is found (`commands`), the new files are written, and what there is to say
//! is put out (`top`). What each command comes to is a table (`specs/Commands`): a synchronisation and a plan differ only
//! in whether the new files are written. A run ends with what its work came to and with how that was put out
//! (`specs/Endings`), and what a user relies on follows from these. What real files do isn't known here.
//!
//! Proved: the contract of `run` is the theorem of the program, in eight clauses (`specs/Endings`, `specs/Stops`,
//! `README.md`): `ends`, each run ends in one of a few ways, each with its exact cause and with what it leaves;
//! `synchronised` and `reported`, what archive, replicas and output are after a run that was carried out; `shown`, that
//! the output of every command is that of the one effect of its files; `refused`, that nothing has changed where a run is
//! refused, and `untouched`, that no command but `sync` changes a file; `complete`, that what can be done is; and `again`,
//! that a run that stopped anywhere comes to the same end when it is run again. It holds for every list of words, every
//! store and sink, and all formats and text lenses that meet the laws of their traits.
#![tactic(auto)]

mod acting;
mod commands;
mod report;
mod top;

pub use top::run;
