//! Lines that are to show another card.
ghost use Rattle.std.specs.Prelude.{◌≡◌, ◌<◌, ◌++◌, ◌∷◌, [], All, IfOk, IfSome, IsTrue, MatchOption, OnOk, Some, None, cond, not, map, filter, length, get_or, slice_get, option_and_then};
ghost use Rattle.std.specs.Option.{option_map};
ghost use Rattle.std.specs.List.{flat_map};
ghost use Rattle.std.specs.FinSet.{contains};
ghost use Rattle.hm_book_cards.specs.Cards.{texts_in, texts_at};
ghost use Rattle.hm_lines_cards.specs.Lines as lines_spec;
ghost use Rattle.hm_lines_cards.specs.Rewriting as spec;
ghost use Rattle.hm_lines_cards.specs.Lent.{AreLines, lent, line_of, target_of, targets_of, bytes_in, all_bytes, plain};

use crate::card::set_of;
use crate::line::{Line, NewLine, is_of, shows, text_shown};
use crate::writing::{new_line, with_value};
use hm_book_cards::edges_at;
use hm_tree::{Memory, Name, NameSet, Tree};
use std::alloc::Global;

/// The lines of an item that is to show a card: those from before that stay, with a new value where one changed, and behind
/// them the new ones; none where all are those from before.
pub fn rewrite<'a>(
    alloc: Global,
    properties: &[(Name, bool)],
    lines: &[Line<'a>],
    card: &Tree,
) -> Result<Option<Vec<NewLine<'a>>>, Memory>
    requires { AreLines lines.now }
    ensures { IfOk result (λ new. MatchOption new (spec.rewritten properties.now card.now (lent lines.now) ≡ lent lines.now) (λ new. all_bytes new.items ≡ plain (spec.rewritten properties.now card.now (lent lines.now)))) }
{
    if are_shown(alloc, properties, lines, card)? {
        return Ok(None);
    }
    let targets = targets_of(alloc, properties, lines)?;
    let mut new = Vec::with_capacity(alloc, lines.len())?;
    append_old(alloc, &mut new, properties, &targets, lines, card)?;
    append_new(alloc, &mut new, properties, &targets, lines, card)?;
    Ok(Some(new))
}

// Whether lines show the texts of a card in their order, which is less to find out than what becomes of each line.
fn are_shown(
    alloc: Global,
    properties: &[(Name, bool)],
    lines: &[Line],
    card: &Tree,
) -> Result<bool, Memory>
    requires { AreLines lines.now }
    ensures { IfOk result (λ shown. IsTrue shown → spec.AreShown properties.now card.now (lent lines.now)) }
{
    for property in properties {
        if !is_shown(alloc, property, lines, card)? {
            return Ok(false);
        }
    }
    Ok(true)
}

// The same of one property, which has no more texts than it may.
fn is_shown(
    alloc: Global,
    property: &(Name, bool),
    lines: &[Line],
    card: &Tree,
) -> Result<bool, Memory>
    requires { AreLines lines.now }
    ensures { IfOk result (λ shown. IsTrue shown → spec.IsShown card.now (lent lines.now) property.now) }
{
    let texts = edges_at(card, &property.0);
    if !property.1 && texts.len() > 1 {
        return Ok(false);
    }
    show_just(alloc, &property.0, lines, texts)
}

// Whether what lines show below a name are just these texts.
fn show_just(
    alloc: Global,
    name: &Name,
    lines: &[Line],
    texts: &[(Name, Tree)],
) -> Result<bool, Memory>
    requires { AreLines lines.now }
    ensures { IfOk result (λ just. IsTrue just → lines_spec.texts_of name.now (lent lines.now) ≡ map (λ e. e.0) texts.now) }
{
    let mut left = texts;
    for line in lines {
        if let Some(text) = text_shown(alloc, name, line)? {
            match behind(left, &text) {
                Some(others) => left = others,
                None => return Ok(false),
            }
        }
    }
    Ok(left.is_empty())
}

// The texts behind the first, if this is a certain one.
fn behind<'a>(texts: &'a [(Name, Tree)], text: &Name) -> Option<&'a [(Name, Tree)]>
    ensures { IfSome result (λ others. map (λ e. e.0) texts.now ≡ text.now ∷ map (λ e. e.0) others.now) }
{
    match texts.split_first() {
        Some((first, others)) if first.0.same(text) => Some(others),
        _ => None,
    }
}

// For each property that may have one text the place of its line that shows one, or else of its first.
fn targets_of(
    alloc: Global,
    properties: &[(Name, bool)],
    lines: &[Line],
) -> Result<Vec<Option<usize>>, Memory>
    requires { AreLines lines.now }
    ensures { IfOk result (λ targets. targets.items ≡ targets_of properties.now (lent lines.now)) }
{
    let mut targets = Vec::with_capacity(alloc, properties.len())?;
    for property in properties {
        targets.push(target_of(alloc, property, lines)?)?;
    }
    Ok(targets)
}

// The same of one property.
fn target_of(
    alloc: Global,
    property: &(Name, bool),
    lines: &[Line],
) -> Result<Option<usize>, Memory>
    requires { AreLines lines.now }
    ensures { IfOk result (λ place. place ≡ target_of (lent lines.now) property.now) }
{
    if property.1 {
        return Ok(None);
    }
    match first_shown(alloc, &property.0, lines)? {
        Some(place) => Ok(Some(place)),
        None => Ok(first_of(&property.0, lines)),
    }
}

// The place of the first line that shows a text below a name.
fn first_shown(alloc: Global, name: &Name, lines: &[Line]) -> Result<Option<usize>, Memory>
    requires { AreLines lines.now }
    ensures { IfOk result (λ place. place ≡ spec.first_place (lines_spec.shows name.now) (lent lines.now)) }
{
    for place in 0..lines.len() {
        if shows(alloc, name, &lines[place])? {
            return Ok(Some(place));
        }
    }
    Ok(None)
}

// The place of the first line of a property.
fn first_of(name: &Name, lines: &[Line]) -> Option<usize>
    requires { AreLines lines.now }
    ensures { result ≡ spec.first_place (lines_spec.is_of name.now) (lent lines.now) }
{
    for place in 0..lines.len() {
        if is_of(&lines[place], name) {
            return Some(place);
        }
    }
    None
}

// The place of the property that a line is of.
fn property_of(properties: &[(Name, bool)], line: &Line) -> Option<usize>
    requires { lines_spec.IsLine (line_of line.now) }
    ensures property { option_and_then (slice_get properties.now) result ≡ spec.property_of properties.now (line_of line.now) }
    ensures within { IfSome result (λ place. place < length properties.now) }
{
    for place in 0..properties.len() {
        if is_of(line, &properties[place].0) {
            return Some(place);
        }
    }
    None
}

// Puts what becomes of lines behind others.
fn append_old<'a>(
    alloc: Global,
    new: &mut Vec<NewLine<'a>>,
    properties: &[(Name, bool)],
    targets: &[Option<usize>],
    lines: &[Line<'a>],
    card: &Tree,
) -> Result<(), Memory>
    requires lines { AreLines lines.now }
    requires targets { targets.now ≡ targets_of properties.now (lent lines.now) }
    ensures { OnOk result (all_bytes new.new.items ≡ all_bytes new.old.items ++ plain (spec.rewritten_from properties.now card.now (lent lines.now) 0 (lent lines.now))) }
{
    for place in 0..lines.len() {
        if let Some(line) = line_at(alloc, properties, targets, lines, place, card)? {
            new.push(line)?;
        }
    }
    Ok(())
}

// What becomes of the line at a place.
fn line_at<'a>(
    alloc: Global,
    properties: &[(Name, bool)],
    targets: &[Option<usize>],
    lines: &[Line<'a>],
    place: usize,
    card: &Tree,
) -> Result<Option<NewLine<'a>>, Memory>
    requires lines { AreLines lines.now }
    requires targets { targets.now ≡ targets_of properties.now (lent lines.now) }
    requires within { place < length lines.now }
    ensures { IfOk result (λ new. bytes_in new ≡ plain (spec.line_at properties.now card.now (lent lines.now) place (get_or (lent lines.now) place ([], None)))) }
{
    let line = &lines[place];
    match property_of(properties, line) {
        Some(at) => line_for(
            alloc,
            &properties[at],
            is_at(place, targets[at]),
            line,
            card,
        ),
        None => Ok(Some(NewLine::Kept(line.text))),
    }
}

fn is_at(place: usize, target: Option<usize>) -> bool
    ensures { result ≡ spec.is_at place target }
{
    target == Some(place)
}

// What becomes of a line of a property.
fn line_for<'a>(
    alloc: Global,
    property: &(Name, bool),
    is_target: bool,
    line: &Line<'a>,
    card: &Tree,
) -> Result<Option<NewLine<'a>>, Memory>
    requires { lines_spec.IsLine (line_of line.now) }
    ensures { IfOk result (λ new. bytes_in new ≡ plain (spec.line_for property.now (texts_at property.now.0 card.now) is_target (line_of line.now))) }
{
    if property.1 {
        return of_set(alloc, &property.0, line, card.child(&property.0));
    }
    if !is_target {
        return Ok(Some(NewLine::Kept(line.text)));
    }
    of_one(alloc, &property.0, line, first_text(card, &property.0))
}

// A line of a property of many texts, where its text is one of these, or where it shows none.
fn of_set<'a>(
    alloc: Global,
    name: &Name,
    line: &Line<'a>,
    texts: Option<&Tree>,
) -> Result<Option<NewLine<'a>>, Memory>
    requires { lines_spec.IsLine (line_of line.now) }
    ensures { IfOk result (λ new. bytes_in new ≡ plain (spec.if_stays (spec.stays (texts_in (option_map (λ t. t.now) texts.entry)) (lines_spec.text_shown name.now (line_of line.now))) (line_of line.now))) }
{
    if stays(texts, text_shown(alloc, name, line)?) {
        Ok(Some(NewLine::Kept(line.text)))
    } else {
        Ok(None)
    }
}

// Whether a line that shows a text or none stays, where these are to be shown.
fn stays(texts: Option<&Tree>, text: Option<Name>) -> bool
    ensures { result ≡ spec.stays (texts_in (option_map (λ t. t.now) texts.entry)) text }
{
    match text {
        Some(text) => has(texts, &text),
        None => true,
    }
}

// Whether a text is one of these.
fn has(texts: Option<&Tree>, text: &Name) -> bool
    ensures { result ≡ contains (texts_in (option_map (λ t. t.now) texts.entry)) text.now }
{
    match texts {
        Some(texts) => texts.child(text).is_some(),
        None => false,
    }
}

// The first text of a card below a name.
fn first_text<'a>(card: &'a Tree, name: &Name) -> Option<&'a Name>
    ensures { option_map (λ t. t.now) result ≡ spec.first_in (texts_at name.now card.now) }
{
    match edges_at(card, name).first() {
        Some(edge) => Some(&edge.0),
        None => None,
    }
}

// The line of a property of one text, which is to show a text or none.
fn of_one<'a>(
    alloc: Global,
    name: &Name,
    line: &Line<'a>,
    text: Option<&Name>,
) -> Result<Option<NewLine<'a>>, Memory>
    requires { lines_spec.IsLine (line_of line.now) }
    ensures { IfOk result (λ new. bytes_in new ≡ plain (spec.one_line (option_map (λ t. t.now) text.entry) (lines_spec.text_shown name.now (line_of line.now)) (line_of line.now))) }
{
    let old = text_shown(alloc, name, line)?;
    match text {
        Some(text) => showing(alloc, line, &old, text),
        None => Ok(unless(old.is_some(), line)),
    }
}

// A line, unless it goes.
fn unless<'a>(goes: bool, line: &Line<'a>) -> Option<NewLine<'a>>
    ensures { bytes_in result ≡ cond goes [] (line.now.text.now ∷ []) }
{
    if goes {
        None
    } else {
        Some(NewLine::Kept(line.text))
    }
}

// The line that is to show a text, which stays if it shows it.
fn showing<'a>(
    alloc: Global,
    target: &Line<'a>,
    old: &Option<Name>,
    text: &Name,
) -> Result<Option<NewLine<'a>>, Memory>
    requires { lines_spec.IsLine (line_of target.now) }
    ensures { IfOk result (λ new. bytes_in new ≡ plain (spec.one_line (Some text.now) old.now (line_of target.now))) }
{
    if is_same(old, text) {
        return Ok(Some(NewLine::Kept(target.text)));
    }
    match target.parts {
        Some(parts) => Ok(Some(NewLine::Made(with_value(alloc, target.text, parts, text)?))),
        None => Ok(Some(NewLine::Kept(target.text))),
    }
}

fn is_same(old: &Option<Name>, text: &Name) -> bool
    ensures { result ≡ spec.is_same old.now text.now }
{
    match old {
        Some(old) => old == text,
        None => false,
    }
}

// Puts the new lines of a card behind others.
fn append_new<'a>(
    alloc: Global,
    new: &mut Vec<NewLine<'a>>,
    properties: &[(Name, bool)],
    targets: &[Option<usize>],
    lines: &[Line],
    card: &Tree,
) -> Result<(), Memory>
    requires lines { AreLines lines.now }
    requires targets { targets.now ≡ targets_of properties.now (lent lines.now) }
    ensures { OnOk result (all_bytes new.new.items ≡ all_bytes new.old.items ++ plain (flat_map (spec.lines_for card.now (lent lines.now)) properties.now)) }
{
    for place in 0..properties.len() {
        append_for(alloc, new, &properties[place], targets[place], lines, card)?;
    }
    Ok(())
}

// Those of one property.
fn append_for<'a>(
    alloc: Global,
    new: &mut Vec<NewLine<'a>>,
    property: &(Name, bool),
    target: Option<usize>,
    lines: &[Line],
    card: &Tree,
) -> Result<(), Memory>
    requires lines { AreLines lines.now }
    requires target { target ≡ target_of (lent lines.now) property.now }
    ensures { OnOk result (all_bytes new.new.items ≡ all_bytes new.old.items ++ plain (spec.lines_for card.now (lent lines.now) property.now)) }
{
    let texts = edges_at(card, &property.0);
    if property.1 {
        let old = set_of(alloc, &property.0, lines)?;
        return append_others(alloc, new, &property.0, texts, &old);
    }
    if target.is_some() {
        return Ok(());
    }
    let none = NameSet::from_list(Vec::new(alloc))?;
    append_others(alloc, new, &property.0, texts, &none)
}

// Puts lines for those texts behind others that aren't in a set.
fn append_others<'a>(
    alloc: Global,
    new: &mut Vec<NewLine<'a>>,
    name: &Name,
    texts: &[(Name, Tree)],
    old: &NameSet,
) -> Result<(), Memory>
    ensures { OnOk result (all_bytes new.new.items ≡ all_bytes new.old.items ++ plain (map (spec.new_line name.now) (filter (λ k. not (contains old.now k)) (map (λ e. e.0) texts.now)))) }
{
    for text in texts {
        if !old.has(&text.0) {
            new.push(NewLine::Made(new_line(alloc, name, &text.0)?))?;
        }
    }
    Ok(())
}
