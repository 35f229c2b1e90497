//! Columns.
use hm_tree::Name;

/// A column whose fields show texts.
#[derive(Drop)]
pub struct Column {
    /// The name below which they stand in a card.
    pub name: Name,
    /// Whether a field shows many texts, or one at the most.
    pub many: bool,
    /// The place of its field in a record.
    pub place: usize,
}
