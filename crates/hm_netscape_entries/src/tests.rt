//! That texts are made where there is memory.

use crate::{address_in, is_toolbar, text_of};
use std::test::Fail;

#[test]
fn texts(rt: HostRuntime) -> Result<(), Fail> {
    let alloc = rt.alloc();
    let title = text_of(alloc, b"R&amp;D\r\nnews")?;
    assert_eq!(rt; title.text(), "R&D\nnews");
    let address = address_in(
        alloc,
        b" ADD_DATE=\"1\" href=https://a.example/?a&amp;b HREF=\"no\"",
    )?;
    assert_eq!(rt; address.text(), "https://a.example/?a&b");
    assert!(rt; is_toolbar(b" X=1 Personal_Toolbar_Folder=TRUE"));
    assert!(rt; !is_toolbar(b" PERSONAL_TOOLBAR_FOLDER=\"1\""));
    Ok(())
}
