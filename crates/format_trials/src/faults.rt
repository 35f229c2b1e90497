//! Faults in words, each a line.
use hm_focal::LensFault;
use hm_format::FormatFault;
use hm_schema_text::SchemaFault;
use hm_tree::{Memory, Path};
use hm_tree_spelling::append_path;
use hm_tree_text::TextFault;
use std::alloc::Global;

/// Why a tree or an archive isn't read.
pub fn text_line(alloc: Global, fault: TextFault) -> Result<Vec<u8>, Memory> {
    if fault == TextFault::Memory {
        return Err(Memory);
    }
    Ok(format!(in alloc; "{fault}\n")?.into_bytes())
}

/// Why a schema isn't read.
pub fn schema_line(alloc: Global, fault: SchemaFault) -> Result<Vec<u8>, Memory> {
    match fault {
        SchemaFault::Memory => Err(Memory),
        bad => Ok(format!(in alloc; "{bad}\n")?.into_bytes()),
    }
}

/// Why options or nodes aren't read, as lines of a lens file.
pub fn lens_line(alloc: Global, fault: LensFault) -> Result<Vec<u8>, Memory> {
    match fault {
        LensFault::Memory => Err(Memory),
        bad => Ok(format!(in alloc; "{bad}\n")?.into_bytes()),
    }
}

/// Why a format refuses.
pub fn format_line(alloc: Global, fault: FormatFault) -> Result<Vec<u8>, Memory> {
    match fault {
        FormatFault::BadOption { key } => {
            let text = key.text();
            Ok(format!(in alloc; "BadOption {text}\n")?.into_bytes())
        }
        FormatFault::NotUtf8 { at } => number_line(alloc, "NotUtf8", at),
        FormatFault::BadItem { number } => number_line(alloc, "BadItem", number),
        FormatFault::NoKey { number } => number_line(alloc, "NoKey", number),
        FormatFault::TooDeep { depth } => number_line(alloc, "TooDeep", depth),
        FormatFault::Outside { path } => path_line(alloc, &path),
        FormatFault::Memory => Err(Memory),
    }
}

fn number_line(alloc: Global, word: &str, number: usize) -> Result<Vec<u8>, Memory> {
    Ok(format!(in alloc; "{word} {number}\n")?.into_bytes())
}

fn path_line(alloc: Global, path: &Path) -> Result<Vec<u8>, Memory> {
    let mut line = Vec::from_slice(alloc, b"Outside ")?;
    append_path(path, &mut line)?;
    line.push(b'\n')?;
    Ok(line)
}
