//! Paths.

use crate::name::Name;
use std::marker::Model;

/// Names from the root down; none of them at the root itself. Contracts see the list of the names.
#[derive(Drop)]
pub struct Path {
    pub names: Vec<Name>,
}

impl Model for Path {
    ghost use Rattle.std.specs.Prelude.{List, ℕ};
    ghost use Rattle.std.specs.Coded.{coded_ℕ, coded_list};

    ghost Value = { List (List ℕ) };

    ghost coded = { coded_list (coded_list coded_ℕ) };

    ghost view = { λ p. p.names.items };
}
