//! The words with which the texts of lenses begin.
ghost use Rattle.hm_focal_terms.specs.Keywords.{IsReadKeyword};

use hm_tree::Name;

/// A word with which the text of a lens begins.
#[derive(Clone, Copy, Drop)]
pub enum Keyword {
    Id,
    Const,
    Hoist,
    Plunge,
    Fork,
    Map,
    Each,
    List,
    Copy,
    Merge,
    ByConcrete,
    ByView,
    Text,
    Call,
    Filter,
    Prune,
    Focus,
    Add,
    Rename,
}

/// The keyword that a word is.
pub fn read_keyword(word: &Name) -> Option<Keyword>
    ensures { IsReadKeyword word.now result }
{
    match word.text() {
        "id" => Some(Keyword::Id),
        "const" => Some(Keyword::Const),
        "hoist" => Some(Keyword::Hoist),
        "plunge" => Some(Keyword::Plunge),
        "xfork" => Some(Keyword::Fork),
        "map" => Some(Keyword::Map),
        "wmap" => Some(Keyword::Each),
        "list" => Some(Keyword::List),
        "copy" => Some(Keyword::Copy),
        "merge" => Some(Keyword::Merge),
        "ccond" => Some(Keyword::ByConcrete),
        "acond" => Some(Keyword::ByView),
        "text" => Some(Keyword::Text),
        "call" => Some(Keyword::Call),
        "filter" => Some(Keyword::Filter),
        "prune" => Some(Keyword::Prune),
        "focus" => Some(Keyword::Focus),
        "add" => Some(Keyword::Add),
        "rename" => Some(Keyword::Rename),
        _ => None,
    }
}
