//! Lens files at their limits, which are long, and the words of faults.
use hm_focal::{LensFault, read_lens};
use std::alloc::Global;
use std::process::Abort;
use std::test::Fail;

// The first bad line; 0 where there is none, and 1,000,000 for want of memory.
fn first_bad_line(alloc: Global, bytes: &[u8]) -> usize {
    match read_lens(alloc, bytes) {
        Ok(_) => 0,
        Err(LensFault::BadLens { line }) => line,
        Err(LensFault::Memory) => 1_000_000,
    }
}

// Compares it, where these lines stand behind the header and the format line.
fn expect_behind(rt: &impl Abort, alloc: Global, lines: &str, line: usize) -> Result<(), Fail> {
    let text = format!(in alloc; "harmony lens 1\nformat tree\n{lines}")?;
    assert_eq!(rt; first_bad_line(alloc, text.as_bytes()), line);
    Ok(())
}

// Two hundred definitions are read, and no more.
#[test]
fn definitions_are_limited(rt: HostRuntime) -> Result<(), Fail> {
    let alloc = rt.alloc();
    let mut lines = String::new(alloc);
    for number in 0..200 {
        let line = format!(in alloc; "lens a{number} Empty Empty = id\n")?;
        lines.push_str(line.as_str())?;
    }
    for (more, number) in [("", 0), ("lens b Empty Empty = id\n", 203)] {
        let text = format!(in alloc; "{lines}{more}main = id\n", lines = lines.as_str())?;
        expect_behind(&rt, alloc, text.as_str(), number)?;
    }
    Ok(())
}

// A lens on each of 1,999 names is 2,000 terms, and one more is too many.
#[test]
fn terms_are_limited(rt: HostRuntime) -> Result<(), Fail> {
    let alloc = rt.alloc();
    let mut pairs = String::new(alloc);
    for number in 1..1999 {
        let pair = format!(in alloc; "k{number}=id,")?;
        pairs.push_str(pair.as_str())?;
    }
    for (more, number) in [("a=id", 0), ("a=id,b=id", 3)] {
        let text = format!(in alloc;
            "lens a Empty Empty = wmap({pairs}{more})\nmain = id\n",
            pairs = pairs.as_str()
        )?;
        expect_behind(&rt, alloc, text.as_str(), number)?;
    }
    Ok(())
}

#[test]
fn faults_are_told(rt: HostRuntime) -> Result<(), Fail> {
    let alloc = rt.alloc();
    for (fault, want) in [
        (LensFault::BadLens { line: 3 }, "line 3 is bad"),
        (LensFault::Memory, "there was no memory"),
    ] {
        assert_eq!(&rt; format!(in alloc; "{fault}")?.as_str(), want);
    }
    Ok(())
}
