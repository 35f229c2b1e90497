//! Which files a run has.

use hm_tree::Name;

/// The greatest number of bytes of a file.
pub const LIMIT: usize = 16_777_216;

/// Which of the files.
#[derive(Clone, Copy, Debug, PartialEq, Eq)]
pub enum Slot {
    Schema,
    /// The lens file of the left replica.
    LensA,
    /// The lens file of the right replica.
    LensB,
    Archive,
    /// The left replica.
    A,
    /// The right replica.
    B,
}

/// A slot, and the name of its file.
#[derive(Clone, Copy)]
pub struct Named<'a> {
    pub slot: Slot,
    pub name: &'a Name,
}

/// A slot, the name of its file, and the bytes that it is to have.
#[derive(Drop)]
pub struct NewFile<'a> {
    pub slot: Slot,
    pub name: &'a Name,
    pub bytes: Vec<u8>,
}
