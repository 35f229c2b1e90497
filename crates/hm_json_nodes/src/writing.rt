//! What stood in a folder, written anew for a tree.
ghost use Rattle.std.specs.Prelude.{◌≡◌, ◌++◌, ◌∷◌, [], ℕ, List, All, IfOk, OnOk, Option, None, map};
ghost use Rattle.hm_tree.specs.Names.{name_cmp};
ghost use Rattle.hm_tree.specs.Names as names;
ghost use Rattle.hm_tree.specs.Classes.{IsClean};
ghost use Rattle.hm_book_items.specs.Items.{Each, fresh, added};
ghost use Rattle.hm_book_items.specs.ItemTrees.{Lists};
ghost use Rattle.hm_book_items.specs.Plans.{keys_of};
ghost use Rattle.hm_marks.specs.Layouts.{items_of};
ghost use Rattle.hm_marks.specs.Pieces.{an_item, surviving, staying};
ghost use Rattle.hm_marks_schema.specs.Members.{IsAt, IsGood};
ghost use Rattle.serde_json.specs.Data.{Items, Members};
ghost use Rattle.serde_json.specs.View.{view, items_view};
ghost use Rattle.hm_json_nodes.specs.Nodes.{json, Contents, AreNodes};
ghost use Rattle.hm_marks_schema.specs.Taken.{HaveTaken};
ghost use Rattle.hm_json_nodes.specs.Anew.{OldItem, IsNodeOf, IsOld, item_entry, IsNodeAnew, AreSpelledAnew, IsFolderWith, IsFolderAnew, Adds};

use crate::anew::{emptied, folder_anew, link_anew};
use crate::kind::text_at;
use crate::members::set;
use hm_book_items::{NewTrees, item_lists};
use hm_marks_schema::{ItemTree, item_of};
use hm_tree::{Memory, Name, Tree};
use serde_json::Value;
use std::alloc::Global;

/// The nodes of a folder from before, written anew for the tree of a folder.
#[cycle(writing)]
pub fn nodes_anew(alloc: Global, old: Vec<Value>, tree: &Tree) -> Result<Vec<Value>, Memory>
    requires nodes { (c : Contents) × AreNodes (items_view old.items) c }
    requires tree { IsAt 1 tree.now }
    ensures { IfOk result (λ new. (c : Contents) → AreNodes (items_view old.items) c → AreSpelledAnew c tree.now (items_view new.items)) }
{
    let lists = item_lists(alloc, tree)?;
    let mut trees = NewTrees::new(alloc, &lists)?;
    let mut new = Vec::with_capacity(alloc, old.len())?;
    add_old(alloc, old, &mut trees, &mut new)?;
    add_new(alloc, &trees, &mut new)?;
    Ok(new)
}

/// A folder's node in which what stands is written anew for a tree. Its other members stay.
pub fn folder_written(alloc: Global, node: Value, tree: &Tree) -> Result<Value, Memory>
    requires node { (members : Members) × (children : Items) × (c : Contents) × IsFolderWith members children c (view node) }
    requires tree { IsAt 1 tree.now }
    ensures { IfOk result (λ new. (members : Members) (children : Items) (c : Contents) → IsFolderWith members children c (view node) → IsFolderAnew members c tree.now (view new)) }
{
    let (mut members, children) = emptied(alloc, node)?;
    let nodes = nodes_anew(alloc, children, tree)?;
    set(alloc, &mut members, "children", Value::Array(nodes))?;
    Ok(Value::Object(members))
}

// Puts what stays of nodes behind others.
#[cycle(writing)]
fn add_old(
    alloc: Global,
    old: Vec<Value>,
    trees: &mut NewTrees,
    new: &mut Vec<Value>,
) -> Result<(), Memory>
    requires nodes { (c : Contents) × AreNodes (items_view old.items) c }
    requires taken { (lists : Lists) × HaveTaken trees.old lists [] }
    ensures taken { OnOk result ((lists : Lists) (c : Contents) → HaveTaken trees.old lists [] → AreNodes (items_view old.items) c → HaveTaken trees.new lists (keys_of (items_of json c))) }
    ensures adds { OnOk result ((lists : Lists) (c : Contents) → HaveTaken trees.old lists [] → AreNodes (items_view old.items) c → Adds new.old.items new.new.items (staying json lists [] c)) }
{
    for node in old {
        add_over(alloc, node, trees, new)?;
    }
    Ok(())
}

// Puts what becomes of a node behind others, if it survives.
#[cycle(writing)]
fn add_over(
    alloc: Global,
    node: Value,
    trees: &mut NewTrees,
    new: &mut Vec<Value>,
) -> Result<(), Memory>
    requires node { (item : OldItem) × IsNodeOf (view node) item }
    requires taken { (lists : Lists) × (before : List (names.Name × OldItem)) × HaveTaken trees.old lists (keys_of before) }
    ensures taken { OnOk result ((lists : Lists) (before : List (names.Name × OldItem)) (item : OldItem) → HaveTaken trees.old lists (keys_of before) → IsNodeOf (view node) item → HaveTaken trees.new lists (keys_of (before ++ item_entry item ∷ []))) }
    ensures adds { OnOk result ((lists : Lists) (before : List (names.Name × OldItem)) (item : OldItem) → HaveTaken trees.old lists (keys_of before) → IsNodeOf (view node) item → Adds new.old.items new.new.items (surviving json lists before (item_entry item))) }
{
    let key = key_of(alloc, &node)?;
    if let Some(tree) = trees.next(&key)? {
        let node = node_anew(alloc, &key, Some(node), tree)?;
        new.push(node)?;
    }
    Ok(())
}

// The key of a node.
fn key_of(alloc: Global, node: &Value) -> Result<Name, Memory>
    ensures key { IfOk result (λ key. (item : OldItem) → IsNodeOf (view node.now) item → key ≡ (item_entry item).0) }
    ensures clean { IfOk result IsClean }
{
    Name::cleaned(alloc, text_at(node, "name").unwrap_or(""))
}

// Puts new nodes behind others, by their keys and places.
#[cycle(writing)]
fn add_new(alloc: Global, trees: &NewTrees, new: &mut Vec<Value>) -> Result<(), Memory>
    requires taken { (lists : Lists) × (before : List (names.Name × OldItem)) × HaveTaken trees.now lists (keys_of before) }
    ensures { OnOk result ((lists : Lists) (before : List (names.Name × OldItem)) → HaveTaken trees.now lists (keys_of before) → Adds new.old.items new.new.items (map an_item (added name_cmp before lists))) }
{
    for edge in 0..trees.lists.len() {
        let key = trees.lists[edge].0;
        add_with_key(alloc, key, trees.left(edge), new)?;
    }
    Ok(())
}

// Those with a key, which are to show some trees.
#[cycle(writing)]
fn add_with_key(
    alloc: Global,
    key: &Name,
    trees: &[&Tree],
    new: &mut Vec<Value>,
) -> Result<(), Memory>
    requires { (n : ℕ) × Each name_cmp (IsGood n key.now) (map (λ t. t.now) trees.now) }
    ensures { OnOk result (Adds new.old.items new.new.items (map an_item (fresh name_cmp key.now (map (λ t. t.now) trees.now)))) }
{
    for tree in trees {
        let node = node_anew(alloc, key, None, tree)?;
        new.push(node)?;
    }
    Ok(())
}

// The node of an item, by its key and its tree, over that from before.
#[cycle(writing)]
fn node_anew(alloc: Global, key: &Name, old: Option<Value>, tree: &Tree) -> Result<Value, Memory>
    requires key { IsClean key.now }
    requires tree { IsAt 3 tree.now }
    requires old { (item : Option OldItem) × IsOld old item }
    ensures { IfOk result (λ node. (item : Option OldItem) → IsOld old item → IsNodeAnew key.now item tree.now (view node)) }
{
    match item_of(tree) {
        ItemTree::Link(address) => link_anew(alloc, key, old, address),
        ItemTree::Folder(inside) => {
            let (mut members, children) = folder_anew(alloc, key, old)?;
            let nodes = nodes_anew(alloc, children, inside)?;
            set(alloc, &mut members, "children", Value::Array(nodes))?;
            Ok(Value::Object(members))
        }
    }
}
