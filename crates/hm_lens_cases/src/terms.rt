//! Texts that are no terms, where no lens file shows it: in one, spaces in front aren't the term's.
use hm_focal_terms::{TermRead, read_term};
use hm_tree::Memory;
use std::alloc::Global;
use std::process::Abort;
use std::test::Fail;

// So many lenses, one behind another.
fn sequence(alloc: Global, count: usize) -> Result<Vec<u8>, Memory> {
    let mut text = Vec::new(alloc);
    for _ in 1..count {
        text.extend_from_slice(b"id;")?;
    }
    text.extend_from_slice(b"id")?;
    Ok(text)
}

#[test]
fn no_space_stands_in_front(rt: HostRuntime) -> Result<(), Fail> {
    let read = read_term(rt.alloc(), b" id")?;
    assert!(rt; matches!(read, TermRead::Nothing));
    Ok(())
}

// Two thousand semicolons are too many.
#[test]
fn semicolons_are_limited(rt: HostRuntime) -> Result<(), Fail> {
    let alloc = rt.alloc();
    let read = read_term(alloc, &sequence(alloc, 2001)?)?;
    assert!(rt; matches!(read, TermRead::Oversized));
    Ok(())
}
