//! What nodes are like, apart from what their edges lead to.

use hm_schema::Shape;
use hm_tree::Name;

/// The shapes, the listed names in ascending order and the twins of a node. Many nodes may share one.
#[derive(Drop)]
pub struct NodeKind {
    pub shapes: Vec<Shape>,
    pub names: Vec<Name>,
    pub twins: Vec<(Name, Name)>,
}
