//! What is handed in to a run.
use hm_format::Format;
use hm_text_lens::TextLens;

/// The formats and the text lenses that lens files may name: of formats of one tag, and of text lenses of one name, the first
/// counts.
#[derive(Clone, Copy)]
pub struct HandedIn<'a> {
    pub formats: &'a [Box<dyn Format>],
    pub texts: &'a [Box<dyn TextLens>],
}
