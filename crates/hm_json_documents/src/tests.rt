//! That documents are read and written where there is memory, and what is none.

use crate::{read_document, write_document};
use std::alloc::{AllocError, Global};
use std::test::Fail;

// Whether a text is a document.
fn is_document(alloc: Global, text: &str) -> bool {
    matches!(read_document(alloc, text), Ok(Some(_)))
}

// Whether a text is no document, and there was memory to see it.
fn is_none(alloc: Global, text: &str) -> bool {
    matches!(read_document(alloc, text), Ok(None))
}

// Arrays within arrays.
fn nested(alloc: Global, depth: u8) -> Result<String, AllocError> {
    let mut text = String::new(alloc);
    for _ in 0..depth {
        text.push('[')?;
    }
    for _ in 0..depth {
        text.push(']')?;
    }
    Ok(text)
}

#[test]
fn what_is_written(rt: HostRuntime) -> Result<(), Fail> {
    let alloc = rt.alloc();
    let text =
        "{ \"b\" : 1, \"a\" : \"\\u00e9\\ud83d\\ude00\\n\",\n\"b\" : [-2, null, true, {}] }\n";
    match read_document(alloc, text)? {
        Some(value) => assert_eq!(rt;
            write_document(alloc, &value)?.as_slice(),
            "{\"a\":\"\u{e9}\u{1f600}\\n\",\"b\":[-2,null,true,{}]}".as_bytes()
        ),
        None => assert_eq!(rt; text, ""),
    }
    Ok(())
}

#[test]
fn numbers(rt: HostRuntime) -> Result<(), Fail> {
    let alloc = rt.alloc();
    assert!(rt; is_document(alloc, "[0,18446744073709551615,-9223372036854775808]"));
    assert!(rt; is_none(alloc, "[1.0]"));
    assert!(rt; is_none(alloc, "{\"a\":[1e2]}"));
    assert!(rt; is_none(alloc, "-0"));
    assert!(rt; is_none(alloc, "18446744073709551616"));
    assert!(rt; is_none(alloc, "-9223372036854775809"));
    Ok(())
}

#[test]
fn what_is_none(rt: HostRuntime) -> Result<(), Fail> {
    let alloc = rt.alloc();
    assert!(rt; is_none(alloc, ""));
    assert!(rt; is_none(alloc, "[1,]"));
    assert!(rt; is_none(alloc, "\"\\ud83d\""));
    assert!(rt; is_none(alloc, "\"\\ude00\""));
    assert!(rt; is_document(alloc, &nested(alloc, 127)?));
    assert!(rt; is_none(alloc, &nested(alloc, 128)?));
    Ok(())
}
