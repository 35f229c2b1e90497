//! What is told of shapes.
ghost use Rattle.std.specs.Prelude.{◌≡◌, ◌↔◌, ◌∷◌, [], IsTrue, All};
ghost use Rattle.std.specs.List.{list_any};
ghost use Rattle.std.specs.FinSet.{from_list};
ghost use Rattle.hm_schema.specs.Tidied.{has_name, lets_in as lets_name_in};
ghost use Rattle.hm_schema.specs.Shapes.{IsShut};
ghost use Rattle.hm_schema_lists.specs.Plain.{exact_shape};
ghost use Rattle.hm_types_table.specs.Shapes.{HasAll};

use crate::names::all_in;
use hm_schema::Shape;
use hm_tree::{Name, NameSet};

/// Whether each shape requires a name alone, and has no others.
pub fn all_alone(shapes: &[Shape], name: &Name) -> bool
    ensures { IsTrue result ↔ All (λ a. a ≡ exact_shape (from_list (name.now ∷ []))) shapes.now }
{
    for shape in shapes {
        if !is_alone(shape, name) {
            return false;
        }
    }
    true
}

fn is_alone(shape: &Shape, name: &Name) -> bool
    ensures { IsTrue result ↔ (shape.now ≡ exact_shape (from_list (name.now ∷ []))) }
{
    is_only(&shape.required, name) && is_bare(&shape.optional) && shape.least == 0 && is_shut(shape)
}

/// Whether a shape lets no unlisted name in.
pub fn is_shut(shape: &Shape) -> bool
    ensures { IsTrue result ↔ IsShut shape.now }
{
    match shape.most {
        Some(most) => most == 0,
        None => false,
    }
}

// Whether a set has a name alone.
fn is_only(names: &NameSet, name: &Name) -> bool
    ensures { IsTrue result ↔ (names.now ≡ from_list (name.now ∷ [])) }
{
    let names = names.names();
    names.len() == 1 && names[0].same(name)
}

/// Whether a set has no names.
pub fn is_bare(names: &NameSet) -> bool
    ensures { IsTrue result ↔ (names.now ≡ from_list []) }
{
    names.names().is_empty()
}

/// Whether a name is required or optional in a shape.
pub fn has(shape: &Shape, name: &Name) -> bool
    ensures { result ≡ has_name shape.now name.now }
{
    shape.required.has(name) || shape.optional.has(name)
}

/// Whether some shape lets unlisted names in.
pub fn some_lets_in(shapes: &[Shape]) -> bool
    ensures { result ≡ list_any lets_name_in shapes.now }
{
    shapes.iter().any(lets_in)
}

/// Whether a shape lets unlisted names in.
pub fn lets_in(shape: &Shape) -> bool
    ensures { result ≡ lets_name_in shape.now }
{
    match shape.most {
        Some(most) => most != 0,
        None => true,
    }
}

/// Whether no shape lets an unlisted name in.
pub fn all_shut(shapes: &[Shape]) -> bool
    ensures { IsTrue result ↔ All IsShut shapes.now }
{
    for shape in shapes {
        if !is_shut(shape) {
            return false;
        }
    }
    true
}

/// Whether each name of each shape is in a set, or none is.
pub fn all_have(shapes: &[Shape], names: &NameSet, inside: bool) -> bool
    ensures { IsTrue result ↔ All (HasAll names.now inside) shapes.now }
{
    for shape in shapes {
        if !has_all(shape, names, inside) {
            return false;
        }
    }
    true
}

fn has_all(shape: &Shape, names: &NameSet, inside: bool) -> bool
    ensures { IsTrue result ↔ HasAll names.now inside shape.now }
{
    all_in(&shape.required, names, inside) && all_in(&shape.optional, names, inside)
}
