//! Reading an outermost folder, a symbol after the other.
ghost use Rattle.std.specs.Prelude.{◌≡◌, ◌+◌, ◌<◌, ◌≤◌, length, Some, IfSome, IfOk, IsTrue, ◌↔◌, MatchResult, option_map};
ghost use Rattle.hm_marks_tokens.specs.Attributes.{are_of_link};
ghost use Rattle.hm_marks_tokens.specs.Lent.{symbol_seen, place_seen, state_seen};
ghost use Rattle.hm_marks_tokens.specs.Reading.{in_title, step, first_words, at_start, in_list, closed, behind_entry, in_link, in_heading, over, HasFolder, IsMisfit};

use crate::attributes::{address, are_attributes};
use crate::symbol::{Symbol, next_symbol};

/// Where a reader stands: what it has read of the entry that it is in, with the bytes of its attributes, its title and its
/// note. A title is empty where there is none.
#[derive(Clone, Copy, Debug)]
pub enum Place<'a> {
    /// Before the outermost list.
    Before,
    /// Where an entry may begin, or the list may end.
    Inside,
    /// Behind `<DT>`.
    Begun,
    /// Behind an `<A>` with these attributes, and behind its title if that was read.
    Linking(&'a [u8], &'a [u8]),
    /// Behind the `</A>` of a link with these attributes and this title.
    Linked(&'a [u8], &'a [u8]),
    /// Behind the `<DD>` of such a link.
    Noting(&'a [u8], &'a [u8]),
    /// Behind an `<H3>` with these attributes, and behind its title if that was read.
    Titling(&'a [u8], &'a [u8]),
    /// Behind the `</H3>` of a folder with these attributes and this title.
    Titled(&'a [u8], &'a [u8]),
    /// Behind the `<DD>` of such a folder.
    Telling(&'a [u8], &'a [u8]),
    /// Behind the note of a folder with these attributes, this title and this note.
    Told(&'a [u8], &'a [u8], &'a [u8]),
    /// Behind the end of the outermost list.
    Over,
}

/// Within how many lists a reader stands, and where.
#[derive(Clone, Copy, Debug)]
pub struct State<'a> {
    /// How many lists have begun and not ended.
    pub lists: usize,
    /// Where it stands.
    pub place: Place<'a>,
}

// Whether what stands next is within an A or H3.
fn in_title(place: Place<'_>) -> bool
    ensures { result ≡ in_title (place_seen place.entry) }
{
    matches!(place, Place::Linking(_, _) | Place::Titling(_, _))
}

/// The state behind a symbol, where a reader stands in this one; none where the symbol doesn't fit.
pub fn step<'a>(state: State<'a>, symbol: Symbol<'a>) -> Option<State<'a>>
    requires { state.lists < usize.MAX }
    ensures value { option_map state_seen result ≡ step (state_seen state.entry) (symbol_seen symbol.entry) }
    ensures few { IfSome result (λ s. s.lists ≤ state.entry.lists + 1) }
{
    let lists = state.lists;
    match state.place {
        Place::Before => at_start(lists, symbol),
        Place::Inside => in_list(lists, symbol),
        Place::Begun => behind_entry(lists, symbol),
        Place::Linking(attributes, title) => in_link(lists, attributes, title, symbol),
        Place::Linked(attributes, title) => match symbol {
            Symbol::Note => at(lists, Place::Noting(attributes, title)),
            _ => in_list(lists, symbol),
        },
        Place::Noting(_, _) => match symbol {
            Symbol::Words(bytes) => first_words(b"", bytes, lists, Place::Inside),
            _ => in_list(lists, symbol),
        },
        Place::Titling(attributes, title) => in_heading(lists, attributes, title, symbol),
        Place::Titled(attributes, title) => match symbol {
            Symbol::Note => at(lists, Place::Telling(attributes, title)),
            _ => at_start(lists, symbol),
        },
        Place::Telling(attributes, title) => match symbol {
            Symbol::Words(bytes) => {
                first_words(b"", bytes, lists, Place::Told(attributes, title, bytes))
            }
            _ => at_start(lists, symbol),
        },
        Place::Told(_, _, _) => at_start(lists, symbol),
        Place::Over => None,
    }
}

// A reader within so many lists, at a place.
fn at(lists: usize, place: Place<'_>) -> Option<State<'_>>
    ensures value { option_map state_seen result ≡ Some (record { lists = lists; place = place_seen place.entry }) }
    ensures few { IfSome result (λ s. s.lists ≤ lists + 1) }
{
    Some(State { lists, place })
}

// Behind a text that isn't empty, where none was read before it; none else.
fn first_words<'a>(before: &[u8], bytes: &[u8], lists: usize, place: Place<'a>) -> Option<State<'a>>
    ensures value { option_map state_seen result ≡ first_words before.now bytes.now (Some (record { lists = lists; place = place_seen place.entry })) }
    ensures few { IfSome result (λ s. s.lists ≤ lists + 1) }
{
    if before.is_empty() && !bytes.is_empty() {
        at(lists, place)
    } else {
        None
    }
}

// Where a list must begin.
fn at_start(lists: usize, symbol: Symbol<'_>) -> Option<State<'_>>
    requires { lists < usize.MAX }
    ensures value { option_map state_seen result ≡ at_start lists (symbol_seen symbol.entry) }
    ensures few { IfSome result (λ s. s.lists ≤ lists + 1) }
{
    match symbol {
        Symbol::List => at(lists + 1, Place::Inside),
        _ => None,
    }
}

// Where an entry may begin, or the list may end.
fn in_list(lists: usize, symbol: Symbol<'_>) -> Option<State<'_>>
    ensures value { option_map state_seen result ≡ in_list lists (symbol_seen symbol.entry) }
    ensures few { IfSome result (λ s. s.lists ≤ lists + 1) }
{
    match symbol {
        Symbol::Entry => at(lists, Place::Begun),
        Symbol::Rule(attributes) if are_attributes(attributes) => at(lists, Place::Inside),
        Symbol::ListEnd => closed(lists),
        _ => None,
    }
}

// Behind the end of a list.
fn closed<'a>(lists: usize) -> Option<State<'a>>
    ensures value { option_map state_seen result ≡ closed lists }
    ensures few { IfSome result (λ s. s.lists ≤ lists + 1) }
{
    match lists {
        0 => None,
        1 => at(0, Place::Over),
        _ => at(lists - 1, Place::Inside),
    }
}

// Behind `<DT>`.
fn behind_entry(lists: usize, symbol: Symbol<'_>) -> Option<State<'_>>
    ensures value { option_map state_seen result ≡ behind_entry lists (symbol_seen symbol.entry) }
    ensures few { IfSome result (λ s. s.lists ≤ lists + 1) }
{
    match symbol {
        Symbol::Link(attributes) if are_of_link(attributes) => at(
            lists,
            Place::Linking(attributes, b""),
        ),
        Symbol::Heading(attributes) if are_attributes(attributes) => {
            at(lists, Place::Titling(attributes, b""))
        }
        _ => None,
    }
}

// Behind an `<A>`.
fn in_link<'a>(
    lists: usize,
    attributes: &'a [u8],
    title: &'a [u8],
    symbol: Symbol<'a>,
) -> Option<State<'a>>
    ensures value { option_map state_seen result ≡ in_link lists attributes.now title.now (symbol_seen symbol.entry) }
    ensures few { IfSome result (λ s. s.lists ≤ lists + 1) }
{
    match symbol {
        Symbol::Words(bytes) => first_words(title, bytes, lists, Place::Linking(attributes, bytes)),
        Symbol::LinkEnd => at(lists, Place::Linked(attributes, title)),
        _ => None,
    }
}

// Behind an `<H3>`.
fn in_heading<'a>(
    lists: usize,
    attributes: &'a [u8],
    title: &'a [u8],
    symbol: Symbol<'a>,
) -> Option<State<'a>>
    ensures value { option_map state_seen result ≡ in_heading lists attributes.now title.now (symbol_seen symbol.entry) }
    ensures few { IfSome result (λ s. s.lists ≤ lists + 1) }
{
    match symbol {
        Symbol::Words(bytes) => first_words(title, bytes, lists, Place::Titling(attributes, bytes)),
        Symbol::HeadingEnd => at(lists, Place::Titled(attributes, title)),
        _ => None,
    }
}

// Whether a link may have these attributes.
fn are_of_link(attributes: &[u8]) -> bool
    ensures { result ≡ are_of_link attributes.now }
{
    are_attributes(attributes) && address(attributes).is_some()
}

/// What stands behind the outermost folder that bytes begin with, and how many symbols it has; or the number of the first
/// symbol that doesn't fit. Symbols that aren't skipped are numbered from 1 on; where the bytes end, or begin a tag that
/// doesn't, it is the number behind the last. The folder may nest as deep as it will, and nothing is allocated.
pub fn skip_folder(bytes: &[u8]) -> Result<(&[u8], usize), usize>
    ensures folder { MatchResult result (λ found. HasFolder bytes.now found.0.now found.1) (IsMisfit bytes.now) }
    ensures few { IfOk result (λ found. found.1 ≤ length bytes.now) }
{
    let mut state = State {
        lists: 0,
        place: Place::Before,
    };
    let mut rest = bytes;
    let mut number = 0;
    while let Some((symbol, behind)) = next_symbol(rest, in_title(state.place)) {
        number += 1;
        let Some(next) = step(state, symbol) else {
            return Err(number);
        };
        if is_over(next.place) {
            return Ok((behind, number));
        }
        state = next;
        rest = behind;
    }
    Err(number + 1)
}

// Whether the outermost list has ended.
fn is_over(place: Place<'_>) -> bool
    ensures { IsTrue result ↔ (place_seen place.entry ≡ over) }
{
    matches!(place, Place::Over)
}
