//! Small schemas, spelled in more ways than one.
use crate::setting::{expect, schema_of};
use hm_schema::NodeId;
use hm_types_table::{Table, same};
use std::alloc::Global;
use std::test::Fail;

const LIST: &str =
    "harmony schema 1\nroot List\nnode List\n  edge *h Item\n  edge *t List\n  shape\n  shape *h *t\nnode Item\n  edge a Empty\n  shape a\n";

// A list whose first cell is a node of its own, and whose shapes stand in the other order.
const UNROLLED: &str =
    "harmony schema 1\nroot First\nnode Item\n  edge a Empty\n  shape a\nnode First\n  edge *h Item\n  edge *t Rest\n  shape *h *t\n  shape\nnode Rest\n  edge *h Item\n  edge *t First\n  shape\n  shape *h *t\n";

// A list with an item at least.
const SOME: &str =
    "harmony schema 1\nroot Some\nnode Some\n  edge *h Item\n  edge *t List\n  shape *h *t\nnode List\n  edge *h Item\n  edge *t List\n  shape\n  shape *h *t\nnode Item\n  edge a Empty\n  shape a\n";

// A node that lists a name too many, which stands in no shape.
const SPARE: &str =
    "harmony schema 1\nroot Book\nnode Book\n  edge a Empty\n  edge b Book\n  shape ? a\n";

const PLAIN: &str = "harmony schema 1\nroot Book\nnode Book\n  edge a Empty\n  shape ? a\n";

const CLEAN: &str = "harmony schema 1\nroot Book\nnode Book\n  other clean Empty\n  shape + 0..\n";

const FILLED: &str =
    "harmony schema 1\nroot Book\nnode Book\n  other filled Empty\n  shape + 0..\n";

// Whether the roots of two schemas are the same in a table of both.
fn are_same(alloc: Global, one: &str, two: &str) -> Result<bool, Fail> {
    let one = schema_of(alloc, one)?;
    let two = schema_of(alloc, two)?;
    let (first, second) = (one.nodes(), two.nodes());
    let table = Table::of(alloc, first, second)?;
    let root = NodeId {
        place: first.len() + two.root().place,
    };
    Ok(same(&table, one.root(), root))
}

// Whether the schemas of each pair are the same.
fn expect_pairs(alloc: Global, pairs: &[(&str, &str, bool)]) -> Result<(), Fail> {
    for (one, two, are) in pairs {
        expect(are_same(alloc, one, two)? == *are, two)?;
    }
    Ok(())
}

const LISTS: &[(&str, &str, bool)] = &[
    (LIST, LIST, true),
    (LIST, UNROLLED, true),
    (UNROLLED, LIST, true),
    (LIST, SOME, false),
];

#[test]
fn lists_are_the_same_however_they_are_unrolled(rt: HostRuntime) -> Result<(), Fail> {
    expect_pairs(rt.alloc(), LISTS)
}

const SPARES: &[(&str, &str, bool)] = &[(PLAIN, SPARE, true), (PLAIN, LIST, false)];

#[test]
fn names_that_stand_in_no_shape_do_not_count(rt: HostRuntime) -> Result<(), Fail> {
    expect_pairs(rt.alloc(), SPARES)
}

const CLASSES: &[(&str, &str, bool)] = &[(CLEAN, CLEAN, true), (CLEAN, FILLED, false)];

#[test]
fn classes_count(rt: HostRuntime) -> Result<(), Fail> {
    expect_pairs(rt.alloc(), CLASSES)
}
