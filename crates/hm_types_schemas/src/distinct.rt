//! Shapes without repeats.
ghost use Rattle.std.specs.Prelude.{◌≡◌, [], IsTrue, IfOk};
ghost use Rattle.std.specs.declared.cmp.Ordering.TheVariants.{Less};
ghost use Rattle.hm_schema.specs.ShapeOrder.{shape_cmp};
ghost use Rattle.hm_types_rules.specs.Numbering.{IsDistinct};
ghost use Rattle.hm_types_schemas.specs.Rising.{Rise};

use hm_schema::{Shape, copy_shapes};
use hm_tree::Memory;
use std::alloc::Global;
use std::cmp::Ordering;
use std::collections::BTreeSet;

/// Copies of the shapes, each where it stands first.
pub fn distinct(alloc: Global, shapes: &[Shape]) -> Result<Vec<Shape>, Memory>
    ensures { IfOk result (λ kept. IsDistinct [] shapes.now kept.items) }
{
    // Shapes that rise have no repeats, which is seen without a set of them.
    if rise(shapes) {
        return Ok(copy_shapes(alloc, shapes)?);
    }
    Ok(first_ones(alloc, shapes)?)
}

// Whether each shape is less than those behind it.
fn rise(shapes: &[Shape]) -> bool
    ensures { IsTrue result → Rise shapes.now }
{
    for place in 1..shapes.len() {
        if !is_less(&shapes[place - 1], &shapes[place]) {
            return false;
        }
    }
    true
}

fn is_less(one: &Shape, two: &Shape) -> bool
    ensures { IsTrue result → shape_cmp one.now two.now ≡ Less }
{
    matches!(one.cmp(two), Ordering::Less)
}

fn first_ones(alloc: Global, shapes: &[Shape]) -> Result<Vec<Shape>, Memory>
    ensures { IfOk result (λ kept. IsDistinct [] shapes.now kept.items) }
{
    let mut seen = BTreeSet::new(alloc);
    let mut kept = Vec::new(alloc);
    for shape in shapes {
        if seen.insert(shape)? {
            kept.push(shape.copy()?)?;
        }
    }
    Ok(kept)
}
