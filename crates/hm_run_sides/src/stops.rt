//! The faults of lens files and of replicas, as what stops a run.
ghost use Rattle.std.specs.Prelude.{◌≡◌};
ghost use Rattle.hm_run_sides.specs.Stops.{lens_stop, type_stop, format_stop, write_stop};

use hm_focal::LensFault;
use hm_format::FormatFault;
use hm_run_files::{FileFault, Refusal, ReplicaFault, Slot, Stop};
use hm_types::TypeFault;

pub fn lens_stop(slot: Slot, fault: LensFault) -> Stop
    ensures { result ≡ lens_stop slot fault }
{
    match fault {
        LensFault::BadLens { line } => Stop::Refused(Refusal::At(slot, FileFault::BadLens(line))),
        LensFault::Memory => Stop::Memory,
    }
}

pub fn type_stop(slot: Slot, fault: TypeFault) -> Stop
    ensures { result ≡ type_stop slot fault }
{
    let fault = match fault {
        TypeFault::UnknownLens { name } => FileFault::UnknownLens(name),
        TypeFault::Unguarded { name } => FileFault::Unguarded(name),
        TypeFault::Mistyped {
            definition,
            term,
            rule,
        } => FileFault::Mistyped(definition, term, rule),
        TypeFault::TwinLeft { definition, term } => FileFault::TwinLeft(definition, term),
        TypeFault::Memory => return Stop::Memory,
    };
    Stop::Refused(Refusal::At(slot, fault))
}

/// Of options, and of the bytes of a replica.
pub fn format_stop(slot: Slot, fault: FormatFault) -> Stop
    ensures { result ≡ format_stop slot fault }
{
    let fault = match fault {
        FormatFault::BadOption { key } => {
            return Stop::Refused(Refusal::At(slot, FileFault::BadOption(key)));
        }
        FormatFault::NotUtf8 { at } => ReplicaFault::NotUtf8(at),
        FormatFault::BadItem { number } => ReplicaFault::BadItem(number),
        FormatFault::NoKey { number } => ReplicaFault::NoKey(number),
        FormatFault::TooDeep { depth } => ReplicaFault::TooDeep(depth),
        FormatFault::Outside { path } => ReplicaFault::Outside(path),
        FormatFault::Memory => return Stop::Memory,
    };
    Stop::Refused(Refusal::At(slot, FileFault::BadReplica(fault)))
}

/// Of what is to be written, which may be too deep.
pub fn write_stop(slot: Slot, fault: FormatFault) -> Stop
    ensures { result ≡ write_stop slot fault }
{
    match fault {
        FormatFault::TooDeep { depth } => {
            Stop::Refused(Refusal::At(slot, FileFault::Unwritable(depth)))
        }
        other => format_stop(slot, other),
    }
}
