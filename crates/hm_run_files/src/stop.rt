//! Why a run stops.
ghost use Rattle.std.specs.Prelude.{◌≡◌};
ghost use Rattle.hm_run_files.specs.declared.stop.Stop.TheVariants.{Memory as OutOfMemory};

use crate::slot::Slot;
use hm_outside::Kind;
use hm_tree::{Memory, Name, Path};
use std::alloc::AllocFailed;

/// Why the bytes of an archive aren't read.
#[derive(Clone, Copy, Debug, PartialEq, Eq)]
pub enum ArchiveFault {
    /// The number of bytes that some archive's text still begins with.
    At(usize),
    /// More than 1,000 braces are open at once.
    Deep,
}

/// Why the bytes of a replica aren't read.
#[derive(Drop)]
pub enum ReplicaFault {
    /// The number of bytes before the first that isn't UTF-8.
    NotUtf8(usize),
    /// Which line, record or byte isn't of the format's grammar, as the format counts.
    BadItem(usize),
    /// Which item has no key, as the format counts.
    NoKey(usize),
    /// The depth that is too great.
    TooDeep(usize),
    /// The first path, in path order, at which the schema doesn't permit the names.
    Outside(Path),
}

/// What is wrong with one file.
#[derive(Drop)]
pub enum FileFault {
    /// It isn't there.
    Missing,
    /// It has more than 16,777,216 bytes.
    TooLarge,
    /// Of a schema file the first bad line, counted from 1.
    BadSchema(usize),
    /// Of a lens file the first bad line, counted from 1.
    BadLens(usize),
    /// No format has this name, or none that has it is at hand.
    UnknownFormat(Name),
    /// The options aren't those of the format: the key that is bad or missing.
    BadOption(Name),
    /// There is no text lens of this name.
    UnknownLens(Name),
    /// The definition of this name is in a bad cycle.
    Unguarded(Name),
    /// A condition of a lens isn't met: the numbers of the definition, of the lens in it, and of the rule.
    Mistyped(usize, usize, u8),
    /// The view has twins: the numbers of the definition, and of the first lens in it that copies.
    TwinLeft(usize, usize),
    /// The view isn't the same as the schema.
    WrongView,
    BadArchive(ArchiveFault),
    BadReplica(ReplicaFault),
    /// What is to be written is too deep: its depth.
    Unwritable(usize),
    /// The new file has more than 16,777,216 bytes; the number of its bytes.
    Overgrown(usize),
}

/// Why a run changed nothing, each with one exact cause.
#[derive(Drop)]
pub enum Refusal {
    /// The words have no meaning.
    Usage,
    /// Two slots have one name.
    SameName(Slot, Slot),
    /// Something is wrong with the file of this slot.
    At(Slot, FileFault),
}

/// Why a run stopped before its output.
#[derive(Drop)]
pub enum Stop {
    Refused(Refusal),
    /// The store failed in a call of this kind for the file of this slot.
    Fault(Kind, Slot),
    Memory,
}

impl From<Memory> for Stop {
    ghost from_gives = { λ _ stop. stop ≡ OutOfMemory };

    fn from(_: Memory) -> Stop {
        Stop::Memory
    }
}

impl<T: Drop> From<AllocFailed<T>> for Stop {
    ghost from_gives = { λ _ stop. stop ≡ OutOfMemory };

    fn from(_: AllocFailed<T>) -> Stop {
        Stop::Memory
    }
}
