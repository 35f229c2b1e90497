//! Lens files that are read and written.
use crate::lines::line_of;
use hm_focal::{LensFault, read_lens};
use hm_focal_writer::write_lens;
use hm_tree::Memory;
use std::alloc::Global;

// What is read of a lens file, written.
fn rewritten(alloc: Global, file: &[u8]) -> Result<Vec<u8>, LensFault> {
    let program = read_lens(alloc, file)?;
    Ok(write_lens(&program)?)
}

// Whether a lens file is read, and written as it is.
fn stays(alloc: Global, file: &[u8]) -> Result<bool, Memory> {
    match rewritten(alloc, file) {
        Ok(text) => Ok(text.as_slice() == file),
        Err(LensFault::BadLens { .. }) => Ok(false),
        Err(LensFault::Memory) => Err(Memory),
    }
}

/// What is read of a lens file, written, and should that not be written the same again, a line that says so; or the
/// first bad line.
pub fn copy_lines(alloc: Global, file: &[u8]) -> Result<Vec<u8>, Memory> {
    match rewritten(alloc, file) {
        Ok(mut text) => {
            if !stays(alloc, &text)? {
                text.extend_from_slice(b"otherwise\n")?;
            }
            Ok(text)
        }
        Err(LensFault::BadLens { line }) => line_of(alloc, "BadLens", line),
        Err(LensFault::Memory) => Err(Memory),
    }
}
