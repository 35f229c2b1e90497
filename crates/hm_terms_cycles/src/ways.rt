//! Ways of calls from one definition to others.
ghost use Rattle.std.specs.Prelude.{◌≡◌, ◌↔◌, ◌<◌, IfOk, IsTrue, length};
ghost use Rattle.std.specs.List.{Contains};
ghost use Rattle.hm_terms_cycles.specs.declared.call.Call.{Call as CallValue};
ghost use Rattle.hm_terms_cycles.specs.Calls.{IsClosed, Leads, IsBackBadly, ComesBackBadly};

use crate::call::Call;
use crate::call_set::CallSet;
use hm_tree::Memory;
use std::alloc::Global;

/// Whether a bad way leads from a definition to itself.
pub fn comes_back_badly(alloc: Global, callees: &[Vec<Call>], start: usize) -> Result<bool, Memory>
    requires closed { IsClosed callees.now }
    requires start { start < length callees.now }
    ensures { IfOk result (λ bad. IsTrue bad ↔ ComesBackBadly callees.now start) }
{
    let ways = ways(alloc, callees, start)?;
    Ok(ways.iter().any(|way| is_back_badly(*way, start)))
}

fn is_back_badly(way: Call, start: usize) -> bool
    ensures { IsTrue result ↔ IsBackBadly start way }
{
    way.place == start && (way.sequence || !way.children)
}

// All ways from a definition, as they differ in where they lead and in what stands on them.
fn ways(alloc: Global, callees: &[Vec<Call>], start: usize) -> Result<Vec<Call>, Memory>
    requires closed { IsClosed callees.now }
    requires start { start < length callees.now }
    ensures { IfOk result (λ ways. (x : CallValue) → Contains ways.items x ↔ Leads callees.now start x) }
{
    let mut found = CallSet::new(alloc, callees.len())?;
    let nowhere = Call {
        place: start,
        sequence: false,
        children: false,
    };
    found.add_behind(nowhere, &callees[start])?;
    let mut at = 0;
    while at < found.calls.len() {
        let way = found.calls[at];
        found.add_behind(way, &callees[way.place])?;
        at += 1;
    }
    Ok(found.calls)
}
