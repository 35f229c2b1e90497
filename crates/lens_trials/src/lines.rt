//! The lines of the program.
use hm_tree::Memory;
use hm_types::TypeFault;
use std::alloc::Global;

/// A word and a number.
pub fn line_of(alloc: Global, word: &str, number: usize) -> Result<Vec<u8>, Memory> {
    Ok(format!(in alloc; "{word} {number}\n")?.into_bytes())
}

// What is wrong with a program.
fn fault_text(alloc: Global, fault: TypeFault) -> Result<String, Memory> {
    match fault {
        TypeFault::Mistyped {
            definition,
            term,
            rule,
        } => Ok(format!(in alloc; "Mistyped {definition} {term} {rule}\n")?),
        TypeFault::UnknownLens { name } => {
            let text = name.text();
            Ok(format!(in alloc; "UnknownLens {text}\n")?)
        }
        TypeFault::Unguarded { name } => {
            let text = name.text();
            Ok(format!(in alloc; "Unguarded {text}\n")?)
        }
        TypeFault::TwinLeft { definition, term } => {
            Ok(format!(in alloc; "TwinLeft {definition} {term}\n")?)
        }
        TypeFault::Memory => Err(Memory),
    }
}

/// The line of that.
pub fn fault_line(alloc: Global, fault: TypeFault) -> Result<Vec<u8>, Memory> {
    Ok(fault_text(alloc, fault)?.into_bytes())
}

/// That a program is typed, and how far its lens was run on so many trees, or that it broke a law.
pub fn trees_line(
    alloc: Global,
    step: &str,
    trees: usize,
    lawful: bool,
) -> Result<Vec<u8>, Memory> {
    let word = if lawful { step } else { "unlawful" };
    Ok(format!(in alloc; "typed\n{word} {trees}\n")?.into_bytes())
}
