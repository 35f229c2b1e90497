//! Small graphs that are reduced, and what is added to them.
use crate::setting::expect;
use crate::vertices::{graph, is_closed, leads_inside, vertex};
use hm_graph_classes::Reduced;
use hm_tree::Memory;
use std::alloc::Global;
use std::test::Fail;

// The reduced graph and the class of each vertex, where all edges lead to vertices.
fn reduced(
    alloc: Global,
    vertices: &[(u64, &[usize])],
) -> Result<Option<(Reduced, Vec<usize>)>, Memory> {
    let graph = graph(alloc, vertices)?;
    if is_closed(&graph) {
        return Ok(Some(Reduced::of(alloc, &graph)?));
    }
    Ok(None)
}

// Whether the reduced graph has so many vertices, and these are the classes.
fn are_classes(
    alloc: Global,
    vertices: &[(u64, &[usize])],
    count: usize,
    want: &[usize],
) -> Result<bool, Memory> {
    match reduced(alloc, vertices)? {
        Some((reduced, classes)) => {
            Ok(reduced.vertices().len() == count && classes.as_slice() == want)
        }
        None => Ok(false),
    }
}

const CHAIN: &[(u64, &[usize])] = &[(7, &[1]), (7, &[2]), (7, &[3]), (7, &[])];

#[test]
fn the_vertices_of_a_chain_are_apart(rt: HostRuntime) -> Result<(), Fail> {
    assert!(rt; are_classes(rt.alloc(), CHAIN, 4, &[0, 1, 2, 3])?);
    Ok(())
}

const CYCLES: &[(u64, &[usize])] = &[(7, &[1]), (7, &[0]), (7, &[3]), (7, &[4]), (7, &[2])];

#[test]
fn cycles_of_different_lengths_are_one_loop(rt: HostRuntime) -> Result<(), Fail> {
    assert!(rt; are_classes(rt.alloc(), CYCLES, 1, &[0, 0, 0, 0, 0])?);
    Ok(())
}

// The list of a vertex, and the same unrolled twice.
const LISTS: &[(u64, &[usize])] = &[(1, &[]), (5, &[0, 1]), (1, &[]), (5, &[0, 4]), (5, &[2, 3])];

#[test]
fn a_loop_is_what_it_unrolls_to(rt: HostRuntime) -> Result<(), Fail> {
    assert!(rt; are_classes(rt.alloc(), LISTS, 2, &[0, 1, 0, 1, 1])?);
    Ok(())
}

// What is added to a graph: a vertex with its label and its edges, or a loop with its label and its first edge.
enum Added {
    Vertex(u64, &'static [usize]),
    Loop(u64, usize),
}

// Where it stands then; none where an edge leads to no vertex.
fn place_of(alloc: Global, reduced: &mut Reduced, added: &Added) -> Result<Option<usize>, Memory> {
    match added {
        Added::Vertex(label, edges) => place_of_vertex(alloc, reduced, *label, edges),
        Added::Loop(label, first) => place_of_loop(alloc, reduced, *label, *first),
    }
}

fn place_of_vertex(
    alloc: Global,
    reduced: &mut Reduced,
    label: u64,
    edges: &[usize],
) -> Result<Option<usize>, Memory> {
    let vertex = vertex(alloc, label, edges)?;
    if !leads_inside(&vertex, reduced.vertices().len()) {
        return Ok(None);
    }
    Ok(Some(reduced.add(label, vertex.next)?))
}

fn place_of_loop(
    alloc: Global,
    reduced: &mut Reduced,
    label: u64,
    first: usize,
) -> Result<Option<usize>, Memory> {
    if first >= reduced.vertices().len() {
        return Ok(None);
    }
    Ok(Some(reduced.add_loop(alloc, label, first)?))
}

// Where each stands that is added.
fn places(
    alloc: Global,
    reduced: &mut Reduced,
    all: &[Added],
) -> Result<Vec<Option<usize>>, Memory> {
    let mut places = Vec::new(alloc);
    for added in all {
        places.push(place_of(alloc, reduced, added)?)?;
    }
    Ok(places)
}

// A loop, of which the graph has one vertex.
const LOOP: &[(u64, &[usize])] = &[(1, &[]), (5, &[0, 1]), (5, &[0, 1])];

const ADDED: &[Added] = &[
    Added::Vertex(1, &[]),
    Added::Vertex(5, &[0, 1]),
    Added::Loop(5, 0),
    Added::Loop(5, 1),
    Added::Loop(5, 1),
    Added::Vertex(5, &[1, 2]),
    Added::Vertex(5, &[2, 1]),
    Added::Loop(5, 2),
];

const PLACES: &[Option<usize>] = &[
    Some(0),
    Some(1),
    Some(1),
    Some(2),
    Some(2),
    Some(2),
    Some(3),
    Some(4),
];

#[test]
fn a_vertex_that_is_there_is_found(rt: HostRuntime) -> Result<(), Fail> {
    let Some((mut reduced, _)) = reduced(rt.alloc(), LOOP)? else {
        return Err("an edge leads to no vertex".into());
    };
    let places = places(rt.alloc(), &mut reduced, ADDED)?;
    expect(places.as_slice() == PLACES, "the places")?;
    expect(reduced.vertices().len() == 5, "the number of vertices")
}
