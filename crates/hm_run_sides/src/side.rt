//! Sides.
use hm_terms::Typed;

/// The place of a format among those that are handed in, and a program that is typed over the format's schema of its options.
#[derive(Drop)]
pub struct Side {
    pub place: usize,
    pub typed: Typed,
}
