//! Entries of lines, and the places that nodes and sections are looked up by.
use crate::setting::expect;
use hm_schema_lines::{Entry, declared_nodes, read_entries, read_section};
use std::alloc::Global;
use std::mem::size_of;
use std::test::Fail;

#[test]
fn an_entry_takes_two_words(_: HostRuntime) -> Result<(), Fail> {
    expect(size_of::<Entry>() == 16, "an entry")
}

// Which line declares a node first.
fn declared(alloc: Global, bytes: &[u8], name: &str) -> Result<Option<usize>, Fail> {
    let entries = read_entries(alloc, bytes)?;
    Ok(declared_nodes(alloc, &entries)?.get(name).copied())
}

#[test]
fn first_places_of_nodes(rt: HostRuntime) -> Result<(), Fail> {
    let bytes = b"node A\n  shape\nnode B\n  shape\nnode A";
    expect(declared(rt.alloc(), bytes, "A")? == Some(0), "A")?;
    expect(declared(rt.alloc(), bytes, "B")? == Some(1), "B")
}

#[test]
fn first_places_of_a_section(rt: HostRuntime) -> Result<(), Fail> {
    let alloc = rt.alloc();
    let lines = read_entries(
        alloc,
        b"  edge x A\n  shape\n  edge y A\n  shape\nnode A\n  shape",
    )?;
    let section = read_section(alloc, &lines)?;
    expect(section.listed.get("y").copied() == Some(1), "y")?;
    expect(section.others == 0 && section.shapes == 2, "the shapes")
}
