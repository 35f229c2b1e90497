//! That files are read where there is memory, and the numbers of what doesn't fit.

use crate::{head_len, is_tail, read_bookmarks};
use hm_format::FormatFault;
use hm_tree::{Memory, Name, Path, Tree};
use std::alloc::Global;
use std::test::Fail;

// A file of a head, what stands in its outermost folder, and a tail.
fn file(alloc: Global, inside: &str, tail: &str) -> Result<Vec<u8>, Memory> {
    let mut bytes = Vec::new(alloc);
    bytes.extend_from_slice(
        b"\xef\xbb\xbf \n<!doctype NETSCAPE-Bookmark-file-1>\n<TITLE>Bookmarks</TITLE>\n<dl><p>\n",
    )?;
    bytes.extend_from_slice(inside.as_bytes())?;
    bytes.extend_from_slice(b"</DL>")?;
    bytes.extend_from_slice(tail.as_bytes())?;
    Ok(bytes)
}

// Whether a tree has a path.
fn has(alloc: Global, tree: &Tree, path: &[&str]) -> Result<bool, Memory> {
    let mut names = Vec::new(alloc);
    for name in path {
        names.push(Name::from_text(alloc, *name)?)?;
    }
    Ok(tree.has(&Path { names }))
}

// The number of what doesn't fit, or none where a file is read.
fn bad_item(alloc: Global, bytes: &[u8]) -> Option<usize> {
    match read_bookmarks(alloc, bytes) {
        Err(FormatFault::BadItem { number }) => Some(number),
        _ => None,
    }
}

#[test]
fn bar_and_other(rt: HostRuntime) -> Result<(), Fail> {
    let alloc = rt.alloc();
    let inside =
        "<DT><A HREF=\"https://n.example/\">N</A>\n<HR>\n<DT><H3 PERSONAL_TOOLBAR_FOLDER=\"true\">Bar</H3>\n<DD>a note\n<DL><p>\n<DT><A HREF=\"https://b.example/?a&amp;b\">R&amp;D</A>\n</DL><p>\n<DT><H3>More</H3>\n<DL><p>\n</DL><p>\n";
    let bytes = file(alloc, inside, "\n<p>\n")?;
    match read_bookmarks(alloc, &bytes) {
        Ok(tree) => {
            assert!(rt;
                has(
                    alloc,
                    &tree,
                    &["bar", "R&D", "*h", "url", "https://b.example/?a&b"]
                )?
            );
            assert!(rt;
                has(
                    alloc,
                    &tree,
                    &["other", "N", "*h", "url", "https://n.example/"]
                )?
            );
            assert!(rt; has(alloc, &tree, &["other", "More", "*h", "folder"])?);
            assert!(rt; !has(alloc, &tree, &["other", "Bar"])?);
        }
        Err(_) => assert!(rt; false),
    }
    Ok(())
}

#[test]
fn numbers(rt: HostRuntime) -> Result<(), Fail> {
    let alloc = rt.alloc();
    assert_eq!(rt; bad_item(alloc, b"<DL></DL>"), Some(0));
    assert_eq!(rt;
        bad_item(
            alloc,
            b"<!DOCTYPE NETSCAPE-Bookmark-file-1><h3>x</h3><DL></DL>"
        ),
        Some(0)
    );
    assert_eq!(rt; bad_item(alloc, &file(alloc, "<DT><A>x</A>", "")?), Some(3));
    assert_eq!(rt; bad_item(alloc, &file(alloc, "<HR>", "<p>")?), None);
    assert_eq!(rt; bad_item(alloc, &file(alloc, "<HR>", "<p> <p>")?), Some(4));
    assert_eq!(rt; bad_item(alloc, &file(alloc, "<HR>", " <p")?), Some(4));
    assert_eq!(rt; bad_item(alloc, &file(alloc, "", "x")?), Some(3));
    assert!(rt; head_len(b"<!DOCTYPE NETSCAPE-Bookmark-file-1> <DLX> <dl >").is_some());
    assert!(rt; is_tail(b"\n<P >\n"));
    Ok(())
}

#[test]
fn nested(rt: HostRuntime) -> Result<(), Fail> {
    let alloc = rt.alloc();
    let mut inside = Vec::new(alloc);
    for _ in 0..51 {
        inside.extend_from_slice(b"<DT><H3>f</H3><DL>")?;
    }
    for _ in 0..51 {
        inside.extend_from_slice(b"</DL>")?;
    }
    let mut bytes = Vec::new(alloc);
    bytes.extend_from_slice(b"<!DOCTYPE NETSCAPE-Bookmark-file-1><DL>")?;
    bytes.extend_from_slice(&inside)?;
    bytes.extend_from_slice(b"</DL>")?;
    match read_bookmarks(alloc, &bytes) {
        Err(FormatFault::TooDeep { depth }) => assert_eq!(rt; depth, 51),
        _ => assert!(rt; false),
    }
    match read_bookmarks(alloc, b"\xff") {
        Err(FormatFault::NotUtf8 { at }) => assert_eq!(rt; at, 0),
        _ => assert!(rt; false),
    }
    Ok(())
}
