//! The bodies of definitions, by name.
ghost use Rattle.std.specs.Prelude.{◌≡◌, IfOk, IsSome, Some, map};
ghost use Rattle.hm_terms.specs.Lenses.{body_of};
ghost use Rattle.hm_terms.specs.Programs.{lens_of, definition_value};
ghost use Rattle.hm_eval_terms.specs.Terms.{IsIndex};

use hm_terms::{Definition, Term};
use hm_tree::{Memory, Name, place_of};
use std::alloc::Global;

/// The bodies of definitions in the order of their names, the first one of each name.
pub fn bodies_of(alloc: Global, definitions: &[Definition]) -> Result<Vec<(Name, &Term)>, Memory>
    ensures { IfOk result (λ bodies. IsIndex definitions.now bodies.items) }
{
    let mut bodies = Vec::with_capacity(alloc, definitions.len())?;
    for definition in definitions {
        if let Err(gap) = place_of(&bodies, &definition.name) {
            bodies.insert(gap, (definition.name.copy()?, &definition.body))?;
        }
    }
    Ok(bodies)
}

/// The body of a definition.
pub fn body<'a>(definitions: &[Definition], bodies: &[(Name, &'a Term)], name: &Name) -> &'a Term
    requires index { IsIndex definitions.now bodies.now }
    requires there { IsSome (body_of (map definition_value definitions.now) name.now) }
    ensures { body_of (map definition_value definitions.now) name.now ≡ Some (lens_of result.now) }
{
    let Ok(place) = place_of(bodies, name) else {
        unreachable!();
    };
    bodies[place].1
}
