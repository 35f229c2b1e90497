//! That entities are read and written where there is memory, that attributes get another address, and that a file as
//! browsers write it is a folder.

use crate::{add_readdressed, escape, skip_folder, unescape};
use std::test::Fail;

#[test]
fn entities(rt: HostRuntime) -> Result<(), Fail> {
    let alloc = rt.alloc();
    let read = unescape(alloc, b"&#8364;5 &lt;&#39;&quot;&#0000039;&nbsp;&")?;
    assert_eq!(rt; read.as_slice(), "\u{20ac}5 <'\"'&nbsp;&".as_bytes());
    let written = escape(alloc, b"R&D <\"x\">")?;
    assert_eq!(rt;
        written.as_slice(),
        "R&amp;D &lt;&quot;x&quot;&gt;".as_bytes()
    );
    Ok(())
}

#[test]
fn another_address(rt: HostRuntime) -> Result<(), Fail> {
    let mut out = Vec::new(rt.alloc());
    add_readdressed(
        &mut out,
        b" ID=7  hRef=old LAST=\"a&amp;b\" HREF=\"2\" ",
        b"https://a.example/?x&\"y\"",
    )?;
    assert_eq!(rt;
        out.as_slice(),
        " ID=7  hRef=\"https://a.example/?x&amp;&quot;y&quot;\" LAST=\"a&amp;b\" HREF=\"2\" ".as_bytes()
    );
    Ok(())
}

#[test]
fn a_file(rt: HostRuntime) -> Result<(), Fail> {
    let file =
        b"<DL><p>\n    <DT><H3 ADD_DATE=\"1\">Bar</H3>\n    <DD>A note\n    <DL><p>\n        <DT><A HREF=\"https://a.example/?a>b\">A &amp; B</A>\n        <HR>\n    </DL><p>\n</DL>\n<p>";
    match skip_folder(file) {
        Ok((rest, count)) => {
            assert_eq!(rt; rest, "\n<p>".as_bytes());
            assert_eq!(rt; count, 15);
        }
        Err(number) => assert_eq!(rt; number, 0),
    }
    Ok(())
}
