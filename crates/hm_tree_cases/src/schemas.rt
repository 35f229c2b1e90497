//! Small schemas, and what they permit.
ghost use Rattle.std.specs.Prelude.{◌≤◌, IfOk, IfSome, IsSome};
ghost use Rattle.hm_tree.specs.States.{Path as PathValue};
ghost use Rattle.hm_schema.specs.Values.{reached};
ghost use Rattle.hm_schema.specs.Membership.{HasNoTwins};

use crate::setting::{expect, path_of, schema_of, set_of, spelled, tree_of};
use hm_schema::{Node, NodeId, Schema, Shape, label_numbers};
use hm_schema_same::same;
use hm_tree::{Class, Memory, Name, NameSet, Tree};
use std::alloc::Global;
use std::test::Fail;

// A tree with so many edges one below another.
fn chain(alloc: Global, depth: usize) -> Result<Tree, Fail> {
    let mut text = String::new(alloc);
    for _ in 1..depth {
        text.push_str("{\"a\":")?;
    }
    text.push_str("{\"a\"")?;
    for _ in 0..depth {
        text.push_str("}")?;
    }
    tree_of(alloc, text.as_str())
}

// Names that aren't listed alone, at each path, in any number within bounds.
fn unlisted_alone(
    alloc: Global,
    class: Class,
    least: u64,
    most: Option<u64>,
) -> Result<Schema, Memory>
    requires { IfSome most (λ most. least ≤ most) }
    ensures no_twins { IfOk result HasNoTwins }
    ensures leads { IfOk result (λ schema. (p : PathValue) → IsSome (reached schema schema.root p)) }
{
    let root = NodeId { place: 0 };
    let mut shapes = Vec::new(alloc);
    shapes.push(Shape {
        required: NameSet::from_list(Vec::new(alloc))?,
        optional: NameSet::from_list(Vec::new(alloc))?,
        least,
        most,
    })?;
    let mut nodes = Vec::new(alloc);
    nodes.push(Node {
        shapes,
        children: Vec::new(alloc),
        other: Some((class, root)),
        twins: Vec::new(alloc),
    })?;
    Ok(Schema::new(nodes, root))
}

// Of x, y and z any two or fewer, with nothing below them.
const TWO_OF_THREE: &str =
    "harmony schema 1\nroot R\nnode R\n  edge x Empty\n  edge y Empty\n  edge z Empty\n  shape ? x y\n  shape ? x z\n  shape ? y z\n";

fn two_of_three(alloc: Global) -> Result<Schema, Fail>
    ensures { IfOk result HasNoTwins }
{
    schema_of(alloc, TWO_OF_THREE)
}

// Of each tree, whether its names are permitted at the root.
fn expect_permitted(alloc: Global, schema: &Schema, cases: &[(&str, bool)]) -> Result<(), Fail> {
    for (text, are) in cases {
        let tree = tree_of(alloc, text)?;
        expect(schema.permits(schema.root(), &tree) == *are, text)?;
    }
    Ok(())
}

// Of each tree, whether it is a member.
fn expect_members(alloc: Global, schema: &Schema, cases: &[(&str, bool)]) -> Result<(), Fail> {
    for (text, is) in cases {
        expect(schema.member(&tree_of(alloc, text)?) == *is, text)?;
    }
    Ok(())
}

// Of each set of names, whether it is permitted at the root.
fn expect_sets(alloc: Global, schema: &Schema, cases: &[(&[&str], bool)]) -> Result<(), Fail> {
    for (texts, are) in cases {
        let names = set_of(alloc, texts)?;
        expect(schema.permits_names(schema.root(), &names) == *are, "a set")?;
    }
    Ok(())
}

// The first path outside, with a slash before each name; empty where the tree is a member.
fn first_outside(alloc: Global, schema: &Schema, tree: &Tree) -> Result<String, Memory>
    requires { HasNoTwins schema.now }
{
    match schema.first_outside(alloc, tree)? {
        Some(path) => spelled(alloc, &path.names),
        None => Ok(String::new(alloc)),
    }
}

// This path is the first outside, and the tree is a member where that is empty.
fn expect_outside(alloc: Global, schema: &Schema, tree: &Tree, want: &str) -> Result<(), Fail>
    requires { HasNoTwins schema.now }
{
    expect(schema.member(tree) == want.is_empty(), "a member")?;
    expect(first_outside(alloc, schema, tree)?.as_str() == want, want)
}

const ANY: &[(&str, bool)] = &[("{}", true), ("{\"\",\"a\",\"b c\"}", true)];

#[test]
fn everything_is_a_member(rt: HostRuntime) -> Result<(), Fail> {
    let alloc = rt.alloc();
    let schema = unlisted_alone(alloc, Class::Any, 0, None)?;
    expect_members(alloc, &schema, ANY)?;
    expect_outside(alloc, &schema, &chain(alloc, 1000)?, "")
}

const LONE: &[(&str, bool)] = &[("{\"a\"}", true), ("{}", false), ("{\"a\",\"b\"}", false)];

#[test]
fn one_unlisted_name_is_permitted(rt: HostRuntime) -> Result<(), Fail> {
    let alloc = rt.alloc();
    let schema = unlisted_alone(alloc, Class::Any, 1, Some(1))?;
    expect_permitted(alloc, &schema, LONE)?;
    expect_outside(alloc, &schema, &chain(alloc, 3)?, "/a/a/a")
}

const FOLDED: &[(&str, bool)] = &[("{\"a\",\"b\"}", true), ("{\"B\",\"a\"}", false)];

#[test]
fn unlisted_names_have_a_class(rt: HostRuntime) -> Result<(), Fail> {
    let alloc = rt.alloc();
    let schema = unlisted_alone(alloc, Class::Folded, 0, None)?;
    expect_members(alloc, &schema, FOLDED)
}

const TWO: &[(&str, bool)] = &[
    ("{}", true),
    ("{\"x\",\"z\"}", true),
    ("{\"x\",\"y\",\"z\"}", false),
    ("{\"w\"}", false),
];

#[test]
fn two_of_three_are_permitted(rt: HostRuntime) -> Result<(), Fail> {
    expect_permitted(rt.alloc(), &two_of_three(rt.alloc())?, TWO)
}

#[test]
fn what_stands_below_is_no_member(rt: HostRuntime) -> Result<(), Fail> {
    let alloc = rt.alloc();
    let schema = two_of_three(alloc)?;
    let tree = tree_of(alloc, "{\"x\",\"z\":{\"x\"}}")?;
    expect(schema.permits(schema.root(), &tree), "its names")?;
    expect_outside(alloc, &schema, &tree, "/z")
}

const LISTED_SETS: &[(&[&str], bool)] = &[
    (&[], true),
    (&["z", "x", "z"], true),
    (&["z", "y", "x"], false),
    (&["w"], false),
];

#[test]
fn sets_of_listed_names_are_permitted(rt: HostRuntime) -> Result<(), Fail> {
    expect_sets(rt.alloc(), &two_of_three(rt.alloc())?, LISTED_SETS)
}

const UNLISTED_SETS: &[(&[&str], bool)] = &[
    (&["b", "a"], true),
    (&[], false),
    (&["a", "B"], false),
    (&["a", "b", "c"], false),
];

#[test]
fn sets_of_unlisted_names_are_permitted(rt: HostRuntime) -> Result<(), Fail> {
    let schema = unlisted_alone(rt.alloc(), Class::Folded, 1, Some(2))?;
    expect_sets(rt.alloc(), &schema, UNLISTED_SETS)
}

// Whether a path leads to the root again.
fn leads_to_root(alloc: Global, texts: &[&str]) -> Result<bool, Memory> {
    let schema = unlisted_alone(alloc, Class::Any, 0, None)?;
    let path = path_of(alloc, texts)?;
    Ok(schema.at(&path) == schema.root())
}

#[test]
fn a_path_has_a_node(rt: HostRuntime) -> Result<(), Fail> {
    expect(leads_to_root(rt.alloc(), &[])?, "no name")?;
    expect(leads_to_root(rt.alloc(), &["a", "b"])?, "two names")
}

#[test]
fn a_copy_is_the_same(rt: HostRuntime) -> Result<(), Fail> {
    let alloc = rt.alloc();
    let schema = two_of_three(alloc)?;
    let copy = schema.copy(alloc)?;
    expect(same(alloc, &schema, &copy)?, "the copy")?;
    expect_permitted(alloc, &copy, TWO)
}

// A class of names, and how many there are at the most.
type Bound = (Class, Option<u64>);

// Whether the schemas of two such are the same.
fn are_same(alloc: Global, one: Bound, two: Bound) -> Result<bool, Memory> {
    let one = unlisted_alone(alloc, one.0, 0, one.1)?;
    let two = unlisted_alone(alloc, two.0, 0, two.1)?;
    same(alloc, &one, &two)
}

const PAIRS: &[(Bound, Bound, bool)] = &[
    ((Class::Clean, None), (Class::Clean, None), true),
    ((Class::Clean, None), (Class::Any, None), false),
    ((Class::Clean, None), (Class::Clean, Some(1)), false),
    ((Class::Clean, Some(0)), (Class::Any, Some(0)), true),
];

#[test]
fn classes_and_bounds_differ(rt: HostRuntime) -> Result<(), Fail> {
    for (one, two, are) in PAIRS {
        assert!(rt; are_same(rt.alloc(), *one, *two)? == *are);
    }
    Ok(())
}

#[test]
fn listed_and_unlisted_names_differ(rt: HostRuntime) -> Result<(), Fail> {
    let alloc = rt.alloc();
    let unlisted = unlisted_alone(alloc, Class::Clean, 0, None)?;
    expect(!same(alloc, &unlisted, &two_of_three(alloc)?)?, "the same")
}

// All these names, and no others.
fn all_of(alloc: Global, names: &[&str]) -> Result<Shape, Memory> {
    Ok(Shape {
        required: set_of(alloc, names)?,
        optional: set_of(alloc, &[])?,
        least: 0,
        most: Some(0),
    })
}

// A node that has no names or all its names, and twins.
fn twinned(alloc: Global, names: &[&str], twins: &[(&str, &str)]) -> Result<Node, Memory> {
    let shapes = vec![in alloc; all_of(alloc, &[])?, all_of(alloc, names)?]?;
    Ok(Node {
        shapes,
        children: children(alloc, names)?,
        other: None,
        twins: pairs(alloc, twins)?,
    })
}

fn children(alloc: Global, names: &[&str]) -> Result<Vec<(Name, NodeId)>, Memory> {
    let mut children = Vec::new(alloc);
    for name in names {
        children.push((Name::from_text(alloc, name)?, NodeId { place: 0 }))?;
    }
    Ok(children)
}

fn pairs(alloc: Global, twins: &[(&str, &str)]) -> Result<Vec<(Name, Name)>, Memory> {
    let mut pairs = Vec::new(alloc);
    for (one, two) in twins {
        pairs.push((Name::from_text(alloc, one)?, Name::from_text(alloc, two)?))?;
    }
    Ok(pairs)
}

// The names of a node and its twins.
type Twins = (
    &'static [&'static str],
    &'static [(&'static str, &'static str)],
);

// The numbers of the nodes' labels.
fn numbers(alloc: Global, nodes: &[Twins]) -> Result<Vec<u64>, Memory> {
    let mut made = Vec::new(alloc);
    for (names, twins) in nodes {
        made.push(twinned(alloc, names, twins)?)?;
    }
    let nodes: Vec<&Node> = made.iter().collect(alloc)?;
    label_numbers(alloc, &nodes)
}

const NODES: &[Twins] = &[
    (&["a", "b"], &[("a", "b"), ("b", "a")]),
    (&["a", "b"], &[("a", "b")]),
    (&["a", "b"], &[("b", "a"), ("a", "b"), ("b", "a")]),
    (&["a"], &[]),
    (&["a", "b"], &[("a", "b"), ("b", "a")]),
];

#[test]
fn labels_have_numbers(rt: HostRuntime) -> Result<(), Fail> {
    let found = numbers(rt.alloc(), NODES)?;
    expect(
        found.as_slice() == [0, 1, 0, 2, 0].as_slice(),
        "the numbers",
    )
}
