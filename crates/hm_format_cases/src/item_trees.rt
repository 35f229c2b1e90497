//! Items with an empty key, as no format has them.
use crate::setting::{expect, names_of};
use hm_book_items::item_tree;
use hm_tree::{Name, Path};
use hm_tree_parts::value;
use std::test::Fail;

#[test]
fn an_empty_key_has_a_list_too(rt: HostRuntime) -> Result<(), Fail> {
    let alloc = rt.alloc();
    let mut items = Vec::new(alloc);
    for (key, text) in [("Bob", "1"), ("", "4")] {
        let shown = value(alloc, Name::from_text(alloc, text)?)?;
        items.push((Name::from_text(alloc, key)?, shown))?;
    }
    let tree = item_tree(alloc, items, 10)?;
    let path = Path {
        names: names_of(alloc, &["", "*h", "4"])?,
    };
    expect(tree.count() == 2 && tree.has(&path), "the empty key")
}
