//! The places of definitions, by name.
ghost use Rattle.std.specs.Prelude.{T, IfOk, OnOk, is_none, ◌≡◌};
ghost use Rattle.std.specs.FinMap.{find, is_sorted};
ghost use Rattle.hm_tree.specs.Names.{name_cmp};
ghost use Rattle.hm_terms_cycles.specs.Places.{names_by, ArePlaces, IsPutLast};

use hm_terms::Definition;
use hm_tree::{Memory, Name, place_of};
use std::alloc::Global;

/// The names of definitions in their order, each with the place of the first definition of that name.
pub fn places_of(alloc: Global, definitions: &[Definition]) -> Result<Vec<(Name, usize)>, Memory>
    ensures { IfOk result (λ places. ArePlaces (names_by definitions.now) places.items) }
{
    let mut places = Vec::with_capacity(alloc, definitions.len())?;
    for (i, definition) in definitions.iter().enumerate() {
        add_name(&mut places, &definition.name, i)?;
    }
    Ok(places)
}

/// Adds a name with a value to those before it, if it isn't there: whether it was added.
pub fn add_name<V: Drop>(places: &mut Vec<(Name, V)>, name: &Name, place: V) -> Result<bool, Memory>
    requires { T (is_sorted name_cmp places.old.items) }
    ensures put { OnOk result (IsPutLast name.now place places.old.items places.new.items) }
    ensures added { IfOk result (λ added. added ≡ is_none (find name_cmp name.now places.old.items)) }
{
    match place_of(places, name) {
        Ok(_) => Ok(false),
        Err(gap) => {
            places.insert(gap, (name.copy()?, place))?;
            Ok(true)
        }
    }
}
