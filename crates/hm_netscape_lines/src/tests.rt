//! That lines are written where there is memory.

use crate::{
    Entry, add_addressed, add_end, add_heading, add_link, add_new_heading, add_new_link,
    add_separator,
};
use hm_tree::Name;
use std::test::Fail;

#[test]
fn lines(rt: HostRuntime) -> Result<(), Fail> {
    let alloc = rt.alloc();
    let mut out = Vec::new(alloc);
    let folder = Entry {
        attributes: b" ADD_DATE=\"1\"",
        title: b"News",
        note: None,
    };
    let link = Entry {
        attributes: b" HREF=old ICON=\"i\"",
        title: b"R&amp;D",
        note: Some(b" two words\n\t "),
    };
    add_heading(&mut out, 0, folder)?;
    add_link(&mut out, 1, link)?;
    add_addressed(&mut out, 1, link, &Name::from_text(alloc, "a&b")?)?;
    add_separator(&mut out, 1, b" SIZE=1")?;
    add_new_heading(&mut out, 1, &Name::from_text(alloc, "<x>")?)?;
    let title = Name::from_text(alloc, "A & B")?;
    let address = Name::from_text(alloc, "https://a.example/?q=\"1\"")?;
    add_new_link(&mut out, 2, &title, &address)?;
    add_end(&mut out, 1)?;
    add_end(&mut out, 0)?;
    let wanted =
        b"<DT><H3 ADD_DATE=\"1\">News</H3>\n<DL><p>\n    <DT><A HREF=old ICON=\"i\">R&amp;D</A>\n    <DD> two words\n    <DT><A HREF=\"a&amp;b\" ICON=\"i\">R&amp;D</A>\n    <DD> two words\n    <HR SIZE=1>\n    <DT><H3>&lt;x&gt;</H3>\n    <DL><p>\n        <DT><A HREF=\"https://a.example/?q=&quot;1&quot;\">A &amp; B</A>\n    </DL><p>\n</DL><p>\n";
    assert!(rt; out.as_slice() == wanted.as_slice());
    Ok(())
}
