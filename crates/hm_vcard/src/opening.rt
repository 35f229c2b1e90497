//! The cards that lines are.
ghost use Rattle.std.specs.Prelude.{◌≡◌, ◌≢◌, ◌<◌, [], IfOk, IfErr, drop, length};
ghost use Rattle.hm_schema.specs.Values.{OptionsValue};
ghost use Rattle.hm_lines_files.specs.Lent.{texts, layout_of, pieces_of, HaveLines};
ghost use Rattle.hm_lines_files.specs.Stops.{AreOf, IsStop as IsFileStop};
ghost use Rattle.hm_vcard.specs.Cards as spec;
ghost use Rattle.hm_vcard.specs.Opening.{IsInFront, IsLineAt, IsNoLineAt, AreAll, IsCardStop, IsStopBehind, IsStop};
ghost use Rattle.hm_vcard.specs.Lent.{card_lines};

use crate::card::Card;
use crate::property::properties;
use hm_lines_cards::second_of;
use hm_lines_files::{Layout, LayoutFault, Piece};
use hm_tree::{Memory, Name};
use std::alloc::Global;

/// The layout of lines, of which none is empty, or the place at which they stop to be those of cards.
pub(crate) fn cards_in<'a>(alloc: Global, lines: &[&'a str]) -> Result<Layout<'a>, LayoutFault>
    ensures layout { (o : OptionsValue) → IfOk result (λ layout. AreOf spec.vcards o (texts lines.now) (layout_of layout)) }
    ensures lines { IfOk result (λ layout. HaveLines layout.pieces.items) }
    ensures stop { (o : OptionsValue) → IfErr result (IsFileStop spec.vcards o (texts lines.now)) }
{
    Ok(Layout {
        pieces: all_of(alloc, lines)?,
        end: Vec::new(alloc),
    })
}

// The cards of lines.
fn all_of<'a>(alloc: Global, lines: &[&'a str]) -> Result<Vec<Piece<'a>>, LayoutFault>
    ensures cards { IfOk result (λ pieces. AreAll (texts lines.now) (pieces_of pieces.items)) }
    ensures lines { IfOk result (λ pieces. HaveLines pieces.items) }
    ensures stop { IfErr result (IsStop (texts lines.now)) }
{
    let single = single(alloc)?;
    let mut pieces = Vec::new(alloc);
    let mut from = 0;
    while from < lines.len() {
        let card = card_at(alloc, &single, lines, from)?;
        from += card.count();
        pieces.push(Piece::Item(card.into_component()?))?;
    }
    Ok(pieces)
}

// The property of which a card has no second text.
fn single(alloc: Global) -> Result<[(Name, bool); 1], Memory>
    ensures { IfOk result (λ found. found ≡ spec.single) }
{
    Ok([(Name::from_text(alloc, "BDAY")?, false)])
}

// The card that begins at a place; a line that doesn't fit by its place among all.
fn card_at<'a>(
    alloc: Global,
    single: &[(Name, bool)],
    lines: &[&'a str],
    from: usize,
) -> Result<Card<'a>, LayoutFault>
    requires single { single.now ≡ spec.single }
    requires within { from < length lines.now }
    ensures card { IfOk result (λ card. IsInFront (drop from (texts lines.now)) (card_lines card)) }
    ensures stop { IfErr result (IsStopBehind (texts lines.now) from) }
{
    let (_, rest) = lines.split_at(from);
    match first_card(alloc, single, rest) {
        Ok(card) => Ok(card),
        Err(LayoutFault::At(place)) => Err(LayoutFault::At(from + place)),
        Err(LayoutFault::Memory) => Err(LayoutFault::Memory),
    }
}

// The card in front of lines.
fn first_card<'a>(
    alloc: Global,
    single: &[(Name, bool)],
    lines: &[&'a str],
) -> Result<Card<'a>, LayoutFault>
    requires single { single.now ≡ spec.single }
    requires some { lines.now ≢ [] }
    ensures card { IfOk result (λ card. IsInFront (texts lines.now) (card_lines card)) }
    ensures stop { IfErr result (IsCardStop (texts lines.now)) }
{
    let begin = line_at(lines, 0, "BEGIN:VCARD")?;
    let version = line_at(lines, 1, "VERSION:4.0")?;
    let (_, others) = lines.split_at(2);
    let properties = properties(alloc, others, lines)?;
    if let Some(place) = second_of(alloc, single, &properties)? {
        return Err(LayoutFault::At(place + 2));
    }
    let end = line_at(lines, properties.len() + 2, "END:VCARD")?;
    Ok(Card {
        begin,
        version,
        properties,
        end,
    })
}

// The line at a place, which has to be a certain one without regard to case.
fn line_at<'a>(lines: &[&'a str], place: usize, wanted: &str) -> Result<&'a str, LayoutFault>
    ensures line { IfOk result (λ line. IsLineAt (texts lines.now) place wanted.now line.now) }
    ensures stop { IfErr result (IsNoLineAt (texts lines.now) place wanted.now) }
{
    match lines.get(place) {
        Some(line) if line.eq_ignore_ascii_case(wanted) => Ok(line),
        _ => Err(LayoutFault::At(place)),
    }
}
