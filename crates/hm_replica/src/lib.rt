//! A file, read through a format and a program of lenses, and written back.
//!
//! A replica is the bytes of a file, the tree that its format reads them as, and the view that a typed program shows of
//! that. Closing it puts a view back: the new bytes are read as that view again, what neither the lens nor the format
//! shows is kept, and where the view hasn't changed they are the bytes that were read (`replica`, `specs/Replicas`).
//! What a new view is put over is the base of the replica, which can be had with the view beside it (`base`,
//! `specs/Bases`); what was written isn't taken apart (`leaving`). Formats and text lenses are known by their laws
//! alone, and the checker of types isn't known at all: that the program fits is what the contracts ask. Each call of a
//! boxed format stands in a function of its own (`boxed`), since a proof loses what one boxed call has told behind
//! another.
//!
//! Proved: `Replica::from_bytes` gives the view that a program which fits shows of a file, with the tree that the format
//! reads unless the lens needs none from before, or the fault of the format. `Replica::close`, and `Base::close` of a replica whose view was taken, give the bytes of the
//! tree that the program puts of a view: they are read and shown as that view again, what neither the program nor the
//! format shows is kept, and where the view hasn't changed they are the bytes that were read; `TooDeep` is told exactly
//! where that tree is over the format's limit (`specs/Replicas`). All this holds for any lawful format and text lenses.
#![tactic(auto)]

mod base;
mod boxed;
mod leaving;
mod replica;

pub use base::Base;
pub use leaving::leave;
pub use replica::Replica;
