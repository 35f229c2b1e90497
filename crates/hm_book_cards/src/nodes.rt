//! The nodes of the schema of address books, and others like them.
ghost use Rattle.std.specs.Prelude.{◌≡◌, [], ◌∷◌, cond, map, IfOk};
ghost use Rattle.hm_schema.specs.Values.{node_value};
ghost use Rattle.std.specs.FinSet.{from_list};
ghost use Rattle.hm_schema_lists.specs.Plain.{exact_shape};
ghost use Rattle.hm_schema_lists.specs.ListNodes as lists;
ghost use Rattle.hm_book_cards.specs.Books as spec;

use hm_schema::{Node, NodeId, Shape};
use hm_tree::{Class, Memory, Name, NameSet};
use std::alloc::Global;

/// A node that lists no names: there are so many others at least and at most, which are of a class and lead to a place.
pub fn open_node(
    alloc: Global,
    class: Class,
    least: u64,
    most: Option<u64>,
    place: usize,
) -> Result<Node, Memory>
    ensures { IfOk result (λ node. node_value node ≡ spec.open_node class least most place) }
{
    let shape = Shape {
        required: no_names(alloc)?,
        optional: no_names(alloc)?,
        least,
        most,
    };
    Ok(Node {
        shapes: vec![in alloc; shape]?,
        children: Vec::new(alloc),
        other: Some((class, NodeId { place })),
        twins: Vec::new(alloc),
    })
}

/// The node of lists with an item at least, or of all lists: what their items lead to, and the others of a list.
pub fn list_node(
    alloc: Global,
    may_be_empty: bool,
    item: usize,
    rest: usize,
) -> Result<Node, Memory>
    ensures { IfOk result (λ node. node_value node ≡ spec.list_node (cond may_be_empty (lists.empty_shape ∷ lists.item_shape ∷ []) (lists.item_shape ∷ [])) item rest) }
{
    let mut shapes = Vec::with_capacity(alloc, 2)?;
    if may_be_empty {
        shapes.push(shape_of(alloc, Vec::new(alloc))?)?;
    }
    let head = Name::from_text(alloc, "*h")?;
    let tail = Name::from_text(alloc, "*t")?;
    shapes.push(shape_of(alloc, vec![in alloc; head.copy()?, tail.copy()?]?)?)?;
    Ok(Node {
        shapes,
        children: vec![in alloc;
            (head, NodeId { place: item }),
            (tail, NodeId { place: rest }),
        ]?,
        other: None,
        twins: Vec::new(alloc),
    })
}

/// The node of a card, which has any of its names.
pub fn card_node(alloc: Global, shown: &[(Name, bool)], kinds: &[bool]) -> Result<Node, Memory>
    requires { kinds.now ≡ spec.kinds shown.now }
    ensures { IfOk result (λ node. node_value node ≡ spec.card_node shown.now) }
{
    let mut names = Vec::with_capacity(alloc, shown.len())?;
    let mut children = Vec::with_capacity(alloc, shown.len())?;
    for (name, many) in shown {
        names.push(name.copy()?)?;
        children.push((name.copy()?, texts_place(kinds, *many)))?;
    }
    let shape = Shape {
        required: no_names(alloc)?,
        optional: NameSet::from_list(names)?,
        least: 0,
        most: Some(0),
    };
    Ok(Node {
        shapes: vec![in alloc; shape]?,
        children,
        other: None,
        twins: Vec::new(alloc),
    })
}

// The place of the node of one text, or of many.
fn texts_place(kinds: &[bool], many: bool) -> NodeId
    ensures { result ≡ spec.id (spec.texts_place kinds.now many) }
{
    let place = match kinds.first() {
        Some(first) if *first != many => 5,
        _ => 3,
    };
    NodeId { place }
}

/// The nodes of texts, with the node of what stands below them behind the first.
pub fn texts_nodes(alloc: Global, kinds: &[bool]) -> Result<Vec<Node>, Memory>
    ensures { IfOk result (λ nodes. map node_value nodes.items ≡ spec.texts_nodes kinds.now) }
{
    let Some((first, others)) = kinds.split_first() else {
        return Ok(Vec::new(alloc));
    };
    let mut nodes = vec![in alloc; texts_node(alloc, *first)?, empty_node(alloc)?]?;
    for many in others {
        nodes.push(texts_node(alloc, *many)?)?;
    }
    Ok(nodes)
}

// The node of one text, or of many.
fn texts_node(alloc: Global, many: bool) -> Result<Node, Memory>
    ensures { IfOk result (λ node. node_value node ≡ spec.texts_node many) }
{
    let most = if many { None } else { Some(1) };
    open_node(alloc, Class::Filled, 1, most, 4)
}

/// The node of what stands below texts, which has no names.
pub fn empty_node(alloc: Global) -> Result<Node, Memory>
    ensures { IfOk result (λ node. node_value node ≡ spec.empty_node) }
{
    Ok(Node {
        shapes: vec![in alloc; shape_of(alloc, Vec::new(alloc))?]?,
        children: Vec::new(alloc),
        other: None,
        twins: Vec::new(alloc),
    })
}

fn no_names(alloc: Global) -> Result<NameSet, Memory>
    ensures { IfOk result (λ names. names ≡ lists.no_names) }
{
    NameSet::from_list(Vec::new(alloc))
}

/// The shape of just these names.
pub fn shape_of(alloc: Global, names: Vec<Name>) -> Result<Shape, Memory>
    ensures { IfOk result (λ shape. shape ≡ exact_shape (from_list names.items)) }
{
    Ok(Shape {
        required: NameSet::from_list(names)?,
        optional: no_names(alloc)?,
        least: 0,
        most: Some(0),
    })
}
