//! The words behind a program's name.
use hm_tree::{Memory, Name};
use std::alloc::Global;
use std::env;
use std::io::ErrorKind;

/// The words behind the program's name. Where one of them isn't text there are none, and none have a meaning.
pub fn words_of(alloc: Global, rt: &HostRuntime) -> Result<Vec<Name>, Memory> {
    let mut words = Vec::new(alloc);
    match env::args(rt) {
        Ok(args) => {
            for word in args.skip(1) {
                words.push(Name::from_text(alloc, word.as_str())?)?;
            }
        }
        Err(error) => {
            if error.kind() == ErrorKind::OutOfMemory {
                return Err(Memory);
            }
        }
    }
    Ok(words)
}
