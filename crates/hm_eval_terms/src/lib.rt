//! Running a lens: what it shows of a tree, and what it puts of a view.
//!
//! A lens runs with the definitions of its program, an index of their bodies and text lenses (`Run`): `show` gives what
//! it shows of a tree (`showing`), `put_by` what it puts of a view with the tree from before or with none (`putting`),
//! and `put_changed` the same, given what was shown of that tree, and only where the view isn't the one that was shown
//! (`changes`). They are the relations of `hm_terms`; nothing here says when a lens fits. Each of the three is one
//! function that calls itself, since functions that call one another may not be lent values of unknown types, as text
//! lenses are. `texts` takes the text of a value through a text lens, and a name is put in place of another without
//! taking the tree apart (`renaming`), as happens in each record of a table whose columns have other names.
//!
//! Proved: `show` gives what a lens shows of a tree, `put_by` what it puts of a view, and `put_changed` the same, given
//! what was shown of the tree from before, wherever the lens shows or puts anything (`specs/Conditions`).
#![tactic(auto)]

mod before;
mod bodies;
mod changes;
mod children;
mod putting;
mod renaming;
mod running;
mod showing;
mod stages;
mod texts;

pub use bodies::bodies_of;
pub use changes::put_changed;
pub use putting::put_by;
pub use running::Run;
pub use showing::show;
