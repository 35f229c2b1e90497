//! The trees of cards.
ghost use Rattle.std.specs.Prelude.{◌≡◌, ◌++◌, [], map, IfOk, OnOk, T};
ghost use Rattle.std.specs.FinMap.{is_sorted};
ghost use Rattle.std.specs.List.Sorted.{IsStrictlySortedBy};
ghost use Rattle.hm_tree.specs.Names.{name_cmp};
ghost use Rattle.hm_tree.specs.Nodes.{node};
ghost use Rattle.hm_tree.specs.Sets.{ascending};
ghost use Rattle.hm_schema.specs.Permitted.{names_of};
ghost use Rattle.hm_book_cards.specs.Cards as spec;

use hm_tree::{Memory, Name, NameSet, Tree};
use std::alloc::Global;

/// The tree of a card with these texts below its names, which rise: an edge for each name that has some texts, and below it
/// an edge to the empty tree for each of them.
pub fn card_tree(alloc: Global, texts: Vec<(Name, NameSet)>) -> Result<Tree, Memory>
    requires { T (is_sorted name_cmp texts.items) }
    ensures { IfOk result (λ tree. tree ≡ spec.card_tree texts.items) }
{
    let mut edges = Vec::with_capacity(alloc, texts.len())?;
    for (name, set) in texts {
        let _text = name.text();
        push_edge(alloc, &mut edges, name, set)?;
    }
    Tree::of_edges(edges)
}

// Puts the edge of a name to its texts behind edges, if it has some.
fn push_edge(
    alloc: Global,
    edges: &mut Vec<(Name, Tree)>,
    name: Name,
    set: NameSet,
) -> Result<(), Memory>
    ensures { OnOk result (edges.new.items ≡ edges.old.items ++ spec.edge_of name (spec.texts_tree set) (ascending set) []) }
{
    let texts = set.into_names();
    if !texts.is_empty() {
        edges.push((name, texts_tree(alloc, texts)?))?;
    }
    Ok(())
}

// The tree of these texts, which rise.
fn texts_tree(alloc: Global, texts: Vec<Name>) -> Result<Tree, Memory>
    requires { IsStrictlySortedBy name_cmp texts.items }
    ensures { IfOk result (λ tree. tree ≡ node (map spec.leaf texts.items)) }
{
    let mut edges = Vec::with_capacity(alloc, texts.len())?;
    for text in texts {
        let _text = text.text();
        edges.push((text, Tree::empty(alloc)))?;
    }
    Tree::of_edges(edges)
}

/// The texts of a card right below a name; none where the name isn't there.
pub fn texts_at(tree: &Tree, name: &Name) -> Result<NameSet, Memory>
    ensures { IfOk result (λ set. set ≡ spec.texts_at name.now tree.now) }
{
    match tree.child(name) {
        Some(texts) => names_of(texts),
        None => NameSet::from_list(Vec::new(tree.allocator())),
    }
}

/// The edges of a card right below a name, which are its texts there; none where the name isn't there.
pub fn edges_at<'a>(card: &'a Tree, name: &Name) -> &'a [(Name, Tree)]
    ensures { ascending (spec.texts_at name.now card.now) ≡ map (λ e. e.0) result.now }
{
    match card.child(name) {
        Some(texts) => texts.edges(),
        None => &[],
    }
}

// The names right below the root of a tree.
fn names_of(tree: &Tree) -> Result<NameSet, Memory>
    ensures { IfOk result (λ set. set ≡ names_of tree.now) }
{
    let mut names = Vec::with_capacity(tree.allocator(), tree.count())?;
    for edge in tree.edges() {
        names.push(edge.0.copy()?)?;
    }
    NameSet::from_list(names)
}
