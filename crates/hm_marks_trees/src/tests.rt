//! That nodes have their tree where there is memory, and none where it would be over a limit.
use crate::{Node, bookmarks_tree};
use hm_book_items::ItemTreeFault;
use hm_marks_schema::marks_schema;
use hm_tree::{Memory, Name, Path, Tree};
use std::alloc::Global;
use std::test::Fail;

fn link(alloc: Global, key: &str, address: &str) -> Result<Node, Memory> {
    Ok(Node::Link(
        Name::from_text(alloc, key)?,
        Name::from_text(alloc, address)?,
    ))
}

fn folder(alloc: Global, key: &str, inside: Vec<Node>) -> Result<Vec<Node>, Memory> {
    Ok(vec![in alloc; Node::Folder(Name::from_text(alloc, key)?, inside)]?)
}

// Two links of one key, and a folder between them with a link in it.
fn nodes(alloc: Global) -> Result<Vec<Node>, Memory> {
    let inside = vec![in alloc; link(alloc, "shop", "http://shop/")?]?;
    let mut nodes = vec![in alloc; link(alloc, "news", "http://one/")?]?;
    nodes.push(Node::Folder(Name::from_text(alloc, "more")?, inside))?;
    nodes.push(link(alloc, "news", "http://two/")?)?;
    Ok(nodes)
}

// So many folders, one in another.
fn nested(alloc: Global, count: usize) -> Result<Vec<Node>, Memory> {
    let mut nodes = Vec::new(alloc);
    for _ in 0..count {
        nodes = folder(alloc, "more", nodes)?;
    }
    Ok(nodes)
}

// So many links of one key.
fn many(alloc: Global, count: usize) -> Result<Vec<Node>, Memory> {
    let mut nodes = Vec::new(alloc);
    for _ in 0..count {
        nodes.push(link(alloc, "news", "http://one/")?)?;
    }
    Ok(nodes)
}

// Whether a tree has a path.
fn has(alloc: Global, tree: &Tree, path: &[&str]) -> Result<bool, Memory> {
    let mut names = Vec::new(alloc);
    for name in path {
        names.push(Name::from_text(alloc, *name)?)?;
    }
    Ok(tree.has(&Path { names }))
}

// How much of a tree is over a limit.
fn over(alloc: Global, other: Vec<Node>) -> Option<usize> {
    match bookmarks_tree(alloc, Vec::new(alloc), other) {
        Err(ItemTreeFault::TooDeep { depth }) => Some(depth),
        _ => None,
    }
}

#[test]
fn whole_file(rt: HostRuntime) -> Result<(), Fail> {
    let alloc = rt.alloc();
    let bar = vec![in alloc; link(alloc, "mail", "http://mail/")?]?;
    let Ok(tree) = bookmarks_tree(alloc, bar, nodes(alloc)?) else {
        assert!(rt; false);
        return Ok(());
    };
    assert!(rt; has(alloc, &tree, &["bar", "mail", "*h", "url", "http://mail/"])?);
    assert!(rt; has(alloc, &tree, &["other", "news", "*h", "url", "http://one/"])?);
    assert!(rt;
        has(
            alloc,
            &tree,
            &["other", "news", "*t", "*h", "url", "http://two/"]
        )?
    );
    assert!(rt;
        has(
            alloc,
            &tree,
            &["other", "more", "*h", "folder", "shop", "*h", "url"]
        )?
    );
    assert!(rt; !has(alloc, &tree, &["other", "more", "*t", "*h"])?);
    assert!(rt; marks_schema(alloc)?.member(&tree));
    Ok(())
}

#[test]
fn fifty_folders(rt: HostRuntime) -> Result<(), Fail> {
    let alloc = rt.alloc();
    assert!(rt; bookmarks_tree(alloc, nested(alloc, 50)?, nested(alloc, 50)?).is_ok());
    assert_eq!(rt; over(alloc, nested(alloc, 51)?), Some(51));
    Ok(())
}

// The depth that is told is that of the whole, and not that of the folder.
#[test]
fn thousand_links(rt: HostRuntime) -> Result<(), Fail> {
    let alloc = rt.alloc();
    let links = folder(alloc, "all", many(alloc, 1000)?)?;
    assert_eq!(rt; over(alloc, links), Some(1007));
    Ok(())
}
