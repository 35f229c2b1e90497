//! That files are written over where there is memory.

use crate::written_anew;
use hm_netscape_files::{files_have_members, opened, read_bookmarks};
use hm_tree::Memory;
use std::alloc::Global;
use std::test::Fail;

const HEAD: &[u8] = b"<!DOCTYPE NETSCAPE-Bookmark-file-1>\r\n<TITLE>Bookmarks</TITLE>\n";

// A file of a head, what stands in its outermost folder, and a tail.
fn file(alloc: Global, inside: &[u8]) -> Result<Vec<u8>, Memory> {
    let mut bytes = Vec::new(alloc);
    bytes.extend_from_slice(HEAD)?;
    bytes.extend_from_slice(b"<DL><p>\n")?;
    bytes.extend_from_slice(inside)?;
    bytes.extend_from_slice(b"</DL><p>\n\n")?;
    Ok(bytes)
}

// Whether a file in which one text stands is written for the tree of another one as a file in which a third stands.
fn is_written(alloc: Global, old: &[u8], new: &[u8], wanted: &[u8]) -> Result<bool, Memory> {
    let before = file(alloc, old)?;
    let other = file(alloc, new)?;
    let Ok(_) = opened(&before) else {
        return Ok(false);
    };
    match read_bookmarks(alloc, &other) {
        Ok(tree) => {
            files_have_members();
            let after = written_anew(alloc, &before, &tree)?;
            Ok(after.as_slice() == file(alloc, wanted)?.as_slice())
        }
        Err(_) => Ok(false),
    }
}

#[test]
fn addresses_change(rt: HostRuntime) -> Result<(), Fail> {
    let alloc = rt.alloc();
    let old = b"<DT><A HREF=\"a:1\" ICON=\"i\">One</A>\n<DD>a note \n<HR>\n<dt><a href=b:2>Two</a>";
    let new = b"<DT><A HREF=\"a:3\">One</A><DT><A HREF=\"b:2\">Two</A>";
    let wanted =
        b"    <DT><A HREF=\"a:3\" ICON=\"i\">One</A>\n    <DD>a note\n    <HR>\n    <DT><A href=b:2>Two</A>\n";
    assert!(rt; is_written(alloc, old, new, wanted)?);
    Ok(())
}

#[test]
fn folders_come_and_go(rt: HostRuntime) -> Result<(), Fail> {
    let alloc = rt.alloc();
    let old =
        b"<DT><H3>Gone</H3><DL><HR></DL><DT><H3 ID=\"1\">Stays</H3>\n<DD>x\n<DL><p><DT><A HREF=\"a:1\">A</A></DL><p><HR><DT><A HREF=\"b:1\">Turned</A>";
    let new =
        b"<DT><H3>Stays</H3><DL></DL><DT><H3>Turned</H3><DL><DT><H3>Inner</H3><DL><DT><A HREF=\"c:1\">C</A></DL></DL>";
    let wanted =
        b"    <DT><H3 ID=\"1\">Stays</H3>\n    <DD>x\n    <DL><p>\n    </DL><p>\n    <HR>\n    <DT><H3>Turned</H3>\n    <DL><p>\n        <DT><H3>Inner</H3>\n        <DL><p>\n            <DT><A HREF=\"c:1\">C</A>\n        </DL><p>\n    </DL><p>\n";
    assert!(rt; is_written(alloc, old, new, wanted)?);
    Ok(())
}

#[test]
fn the_bar_stays_and_a_new_one_is_first(rt: HostRuntime) -> Result<(), Fail> {
    let alloc = rt.alloc();
    let bar =
        b"<DT><A HREF=\"a:1\">A</A><DT><H3 PERSONAL_TOOLBAR_FOLDER=\"true\">Bar</H3><DL><DT><A HREF=\"b:1\">B</A></DL><DT><A HREF=\"z:1\">Z</A>";
    let other = b"<DT><A HREF=\"z:1\">Z</A><DT><A HREF=\"c:1\">C</A>";
    let emptied =
        b"    <DT><H3 PERSONAL_TOOLBAR_FOLDER=\"true\">Bar</H3>\n    <DL><p>\n    </DL><p>\n    <DT><A HREF=\"z:1\">Z</A>\n    <DT><A HREF=\"c:1\">C</A>\n";
    assert!(rt; is_written(alloc, bar, other, emptied)?);
    let made =
        b"    <DT><H3 PERSONAL_TOOLBAR_FOLDER=\"true\">Bookmarks bar</H3>\n    <DL><p>\n        <DT><A HREF=\"b:1\">B</A>\n    </DL><p>\n    <DT><A HREF=\"z:1\">Z</A>\n    <DT><A HREF=\"a:1\">A</A>\n";
    assert!(rt; is_written(alloc, other, bar, made)?);
    assert!(rt; is_written(alloc, b"<HR>", b"", b"    <HR>\n")?);
    Ok(())
}
