//! The first definition in a bad cycle.
ghost use Rattle.std.specs.Prelude.{MatchOption, IfOk};
ghost use Rattle.hm_terms.specs.Programs.{program_value};
ghost use Rattle.hm_terms_cycles.specs.BadCycles.{HasNoBadCycle, IsFirstInBadCycle};

use crate::callees::callees;
use crate::places::places_of;
use crate::ways::comes_back_badly;
use hm_terms::Program;
use hm_tree::Memory;
use std::alloc::Global;

/// The first definition, in the order of the program, that is in a bad cycle: its place among the definitions, if there is
/// one.
pub fn first_in_bad_cycle(alloc: Global, program: &Program) -> Result<Option<usize>, Memory>
    ensures { IfOk result (λ found. MatchOption found (HasNoBadCycle (program_value program.now)) (IsFirstInBadCycle (program_value program.now))) }
{
    let places = places_of(alloc, &program.definitions)?;
    let callees = callees(alloc, &program.definitions, &places)?;
    for place in 0..callees.len() {
        if comes_back_badly(alloc, &callees, place)? {
            return Ok(Some(place));
        }
    }
    Ok(None)
}
