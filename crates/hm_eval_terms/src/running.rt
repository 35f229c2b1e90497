//! What lenses run with.
use hm_terms::{Definition, Term};
use hm_text_lens::TextLens;
use hm_tree::Name;

/// The definitions of a program with an index of their bodies, and the text lenses that it may name.
#[derive(Drop)]
pub struct Run<'a> {
    pub definitions: &'a [Definition],
    pub bodies: &'a [(Name, &'a Term)],
    pub texts: &'a [Box<dyn TextLens>],
}
