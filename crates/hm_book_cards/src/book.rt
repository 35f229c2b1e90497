//! The schema of address books.
ghost use Rattle.std.specs.Prelude.{◌≡◌, map, IfOk, T};
ghost use Rattle.std.specs.FinMap.{is_sorted};
ghost use Rattle.std.specs.List.{list_any};
ghost use Rattle.hm_tree.specs.Names.{name_cmp};
ghost use Rattle.hm_schema.specs.Values.{node_value};
ghost use Rattle.hm_book_cards.specs.Books as spec;

use crate::nodes::{card_node, list_node, open_node, texts_nodes};
use hm_schema::{Node, NodeId, Schema};
use hm_tree::{Class, Memory, Name};
use std::alloc::Global;

/// The schema of address books whose cards may have these names, which rise. Below a name stand many texts where its
/// `bool` is true, and one text at the most where it isn't.
#[tactic(auto, using(crate::proofs::NodeShapes::nodes_formed))]
pub fn book_schema(alloc: Global, shown: &[(Name, bool)]) -> Result<Schema, Memory>
    requires { T (is_sorted name_cmp shown.now) }
    ensures { IfOk result (λ schema. schema ≡ spec.book_schema shown.now) }
{
    let nodes = book_nodes(alloc, shown)?;
    Ok(Schema::new(nodes, NodeId { place: 0 }))
}

// Its nodes.
fn book_nodes(alloc: Global, shown: &[(Name, bool)]) -> Result<Vec<Node>, Memory>
    ensures { IfOk result (λ nodes. map node_value nodes.items ≡ spec.book_nodes shown.now) }
{
    let kinds = kinds_of(alloc, shown)?;
    let mut texts = texts_nodes(alloc, &kinds)?;
    let more = 3 + texts.len();
    let mut nodes = Vec::with_capacity(alloc, more + 1)?;
    nodes.push(open_node(alloc, Class::Filled, 0, None, 1)?)?;
    nodes.push(list_node(alloc, false, 2, more)?)?;
    nodes.push(card_node(alloc, shown, &kinds)?)?;
    nodes.append(&mut texts)?;
    nodes.push(list_node(alloc, true, 2, more)?)?;
    Ok(nodes)
}

// Whether there may be many texts, in the order in which names say so first.
fn kinds_of(alloc: Global, shown: &[(Name, bool)]) -> Result<Vec<bool>, Memory>
    ensures { IfOk result (λ kinds. kinds.items ≡ spec.kinds shown.now) }
{
    let mut kinds = Vec::with_capacity(alloc, 2)?;
    if let Some((first, others)) = shown.split_first() {
        kinds.push(first.1)?;
        if has_other(others, first.1) {
            kinds.push(!first.1)?;
        }
    }
    Ok(kinds)
}

// Whether a name may have one text, and this many, or the other way round.
fn has_other(shown: &[(Name, bool)], many: bool) -> bool
    ensures { result ≡ list_any (spec.differs many) shown.now }
{
    shown.iter().any(|name| name.1 != many)
}
