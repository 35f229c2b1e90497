//! Trees that are taken apart and put together again, with expected values by hand.
ghost use Rattle.std.specs.Prelude.{IfOk};
ghost use Rattle.hm_tree_parts.specs.Lists.{IsList};

use hm_tree::{Memory, Name, Tree};
use hm_tree_parts::{
    copy_edge, drop_edge, hoist, lent_items, list_build, list_items, merge_back, plunge, value,
    value_of,
};
use std::alloc::Global;
use std::process::Abort;
use std::test::Fail;

fn leaf(alloc: Global, text: &str) -> Result<Tree, Memory> {
    value(alloc, Name::from_text(alloc, text)?)
}

// The tree with the child of the first name under the second name too, where it can be made.
fn twice(tree: &Tree, m: &Name, n: &Name) -> Result<Option<Tree>, Memory> {
    match (tree.child(m), tree.child(n)) {
        (Some(_), None) => Ok(Some(copy_edge(tree, m, n)?)),
        _ => Ok(None),
    }
}

// The same for a view and no tree from before.
fn merged(shown: &Tree, m: &Name, n: &Name) -> Result<Option<Tree>, Memory> {
    match (shown.child(m), shown.child(n)) {
        (Some(_), None) => Ok(Some(merge_back(shown, m, n, None)?)),
        _ => Ok(None),
    }
}

// Under the name `a` the child stands alone: it comes back, and no edge is left without the name.
fn expect_edge(rt: &impl Abort, alloc: Global, child: &Tree, a: &Name) -> Result<(), Fail> {
    let tree = plunge(child, a)?;
    assert!(rt; hoist(&tree, a)?.same(child));
    for (taken, count) in [("a", 0), ("b", 1)] {
        let taken = Name::from_text(alloc, taken)?;
        assert_eq!(rt; drop_edge(&tree, &taken)?.count(), count);
    }
    Ok(())
}

// The text that a value was made of.
fn text_again(alloc: Global, text: &str) -> Result<String, Memory> {
    let one = value(alloc, Name::from_text(alloc, text)?)?;
    Ok(String::from_str(alloc, value_of(&one).text())?)
}

#[test]
fn an_edge_is_put_on_and_taken_off(rt: HostRuntime) -> Result<(), Fail> {
    let alloc = rt.alloc();
    expect_edge(
        &rt,
        alloc,
        &leaf(alloc, "1")?,
        &Name::from_text(alloc, "a")?,
    )?;
    assert_eq!(rt; text_again(alloc, "x")?.as_str(), "x");
    Ok(())
}

#[tactic(auto, using(crate::proofs::Lists::items_list))]
fn list_of(alloc: Global, texts: &[&str]) -> Result<Tree, Memory>
    ensures { IfOk result IsList }
{
    let mut items = Vec::new(alloc);
    for text in texts {
        items.push(leaf(alloc, text)?)?;
    }
    list_build(items)
}

fn expect_items(rt: &impl Abort, alloc: Global, items: &[&Tree]) -> Result<(), Fail> {
    let [one, two] = items else {
        return Err("there aren't two items".into());
    };
    assert!(rt; one.same(&leaf(alloc, "2")?));
    assert!(rt; two.same(&leaf(alloc, "1")?));
    Ok(())
}

#[test]
fn a_list_has_the_items_of_which_it_was_built(rt: HostRuntime) -> Result<(), Fail> {
    let alloc = rt.alloc();
    let list = list_of(alloc, &["2", "1"])?;
    assert_eq!(rt; list.depth(), 3);
    expect_items(&rt, alloc, &lent_items(&list)?)?;
    assert_eq!(rt; list_items(&list)?.len(), 2);
    Ok(())
}

// Under `a` and `b` the tree has what it had under `a`, and shows it once.
fn expect_twice(rt: &impl Abort, tree: &Tree, a: &Name, b: &Name) -> Result<(), Fail> {
    let copied = twice(tree, a, b)?.ok_or("a stands alone")?;
    assert_eq!(rt; copied.count(), 2);
    assert!(rt; drop_edge(&copied, b)?.same(tree));
    let merged = merged(tree, a, b)?.ok_or("a stands alone")?;
    assert!(rt; merged.same(&copied));
    Ok(())
}

#[test]
fn a_child_is_shown_twice_and_merged(rt: HostRuntime) -> Result<(), Fail> {
    let alloc = rt.alloc();
    let a = Name::from_text(alloc, "a")?;
    let tree = plunge(&leaf(alloc, "1")?, &a)?;
    expect_twice(&rt, &tree, &a, &Name::from_text(alloc, "b")?)
}
