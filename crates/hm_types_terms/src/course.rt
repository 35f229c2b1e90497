//! What a lens is checked with.
use crate::part::Part;
use crate::texts::TextType;
use hm_schema::NodeId;
use hm_terms::Term;
use hm_tree::Name;
use std::alloc::Global;

/// The lens of a definition, the number of the definition, the lenses in it, for each of them the place of one that is equal,
/// the types of text lenses, and the nodes of the sources and views of all definitions by their names.
#[derive(Drop)]
pub struct Course<'a> {
    pub alloc: Global,
    pub definition: usize,
    pub root: &'a Term,
    pub parts: &'a [Part],
    pub alike: &'a [usize],
    pub texts: &'a [TextType],
    pub declared: &'a [(Name, (NodeId, NodeId))],
}
