//! One run of the program that tells what a synchronisation would change.
//!
//! It goes by the steps that all commands of a synchronisation share: the words name six files, which are loaded and read,
//! each replica through the side of its lens file, and a plan is made of them, or the run is refused as a plan is
//! (`hm_run_sync`). What is told are the changes of both views (`hm_changes`) and the conflicts that remain, in lines
//! (`hm_changes_report`). Nothing is written. `tell` finds what is told of what was read, `finding` that of the bytes of
//! six files, `meaning` what the words ask for, `acting` does the steps over a store, and `top` puts out what there is to
//! say.
//!
//! Proved: the contract of `run` says what is told over the plan of the same words and contents (`specs/Changing`,
//! `specs/Endings`): `ends`, how each run ends, with its exact cause; `told`, that after 0, 1 and 7 exactly the text of
//! the changes of the one plan was put out, and that the status is 7 where more entries of a side would go than may, and
//! else that of a plan; `untouched`, that no file has changed, whatever is answered; and `complete`, that what can be told
//! is, where nothing outside fails.
#![tactic(auto)]

mod acting;
mod finding;
mod meaning;
mod tell;
mod top;

pub use top::run;
