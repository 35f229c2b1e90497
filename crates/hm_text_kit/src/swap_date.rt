//! Exchanging the two forms of a date.
ghost use Rattle.std.specs.Prelude.{◌≡◌, true, IfOk, ◌<◌, IsAscii, length, ◌==◌, ◌&&◌};
ghost use Rattle.hm_text_kit.specs.Dates.{in_calendar, is_date, exchanged, is_digit, two, four};

use hm_text_lens::TextLens;
use hm_tree::{Class, Memory, Name};
use jiff::civil::Date;
use std::alloc::Global;

/// Shows a date as `YYYY-MM-DD` where it is written as `YYYYMMDD`, and the other way round: the extended and the basic
/// form of ISO 8601, for the years 0000 to 9999. Other texts are shown as they are.
#[derive(Drop)]
pub struct SwapDate {
    name: Name,
}

impl SwapDate {
    ghost use Rattle.hm_text_kit.specs.Dates.{swapping_dates};

    /// The lens of this name.
    pub fn new(name: Name) -> SwapDate
        ensures { ⟦<SwapDate as TextLens>⟧.meaning result ≡ swapping_dates name }
    {
        SwapDate { name }
    }
}

impl TextLens for SwapDate {
    ghost use Rattle.hm_text_kit.specs.Dates.{swapping_dates};
    ghost use Rattle.hm_text_kit.specs.DateLaws.{swapping_dates_lawful};

    ghost meaning = { λ t. swapping_dates t.name };

    ghost lawful = { λ t. swapping_dates_lawful t.name };

    fn name(&self) -> &Name {
        &self.name
    }

    fn from_class(&self) -> Class {
        Class::Filled
    }

    fn into_class(&self) -> Class {
        Class::Filled
    }

    fn get(&self, alloc: Global, text: &Name) -> Result<Name, Memory> {
        exchange(alloc, text)
    }

    fn put(&self, alloc: Global, text: &Name, _before: Option<&Name>) -> Result<Name, Memory> {
        exchange(alloc, text)
    }
}

// The other form of a date; another text as it is.
fn exchange(alloc: Global, text: &Name) -> Result<Name, Memory>
    ensures { IfOk result (λ name. name ≡ exchanged text.now) }
{
    match text.bytes().len() {
        8 => with_dashes(alloc, text),
        10 => without_dashes(alloc, text),
        _ => text.copy(),
    }
}

fn with_dashes(alloc: Global, text: &Name) -> Result<Name, Memory>
    requires { length text.now ≡ 8 }
    ensures { IfOk result (λ name. name ≡ exchanged text.now) }
{
    let t = text.bytes();
    if is_date(t[0], t[1], t[2], t[3], t[4], t[5], t[6], t[7]) {
        return of_ascii(
            alloc,
            &[t[0], t[1], t[2], t[3], b'-', t[4], t[5], b'-', t[6], t[7]],
        );
    }
    text.copy()
}

fn without_dashes(alloc: Global, text: &Name) -> Result<Name, Memory>
    requires { length text.now ≡ 10 }
    ensures { IfOk result (λ name. name ≡ exchanged text.now) }
{
    let t = text.bytes();
    let date = is_date(t[0], t[1], t[2], t[3], t[5], t[6], t[8], t[9]);
    if is_dashed(t[4], t[7], date) {
        return of_ascii(alloc, &[t[0], t[1], t[2], t[3], t[5], t[6], t[8], t[9]]);
    }
    text.copy()
}

fn is_dashed(one: u8, other: u8, date: bool) -> bool
    ensures { result ≡ ((one == 45) && ((other == 45) && date)) }
{
    one == b'-' && other == b'-' && date
}

// The name of ASCII bytes.
fn of_ascii(alloc: Global, bytes: &[u8]) -> Result<Name, Memory>
    requires { IsAscii bytes.now }
    ensures { IfOk result (λ name. name ≡ bytes.now) }
{
    match std::str::from_utf8(bytes) {
        Ok(text) => Name::from_text(alloc, text),
        Err(_) => unreachable!(),
    }
}

// Whether eight characters are the digits of a date.
#[tactic(auto, unfolding(crate::specs::Dates::is_date))]
fn is_date(a: u8, b: u8, c: u8, d: u8, e: u8, f: u8, g: u8, h: u8) -> bool
    ensures { result ≡ is_date a b c d e f g h }
{
    is_digit(a)
        && is_digit(b)
        && is_digit(c)
        && is_digit(d)
        && is_digit(e)
        && is_digit(f)
        && is_digit(g)
        && is_digit(h)
        && is_day(four(a, b, c, d), two(e, f), two(g, h))
}

fn is_digit(b: u8) -> bool
    ensures { result ≡ is_digit b }
{
    48 <= b && b <= 57
}

fn two(a: u8, b: u8) -> u8
    requires a { is_digit a ≡ true }
    requires b { is_digit b ≡ true }
    ensures value { result ≡ two a b }
    ensures small { result < 100 }
{
    10 * (a - 48) + (b - 48)
}

fn four(a: u8, b: u8, c: u8, d: u8) -> u16
    requires a { is_digit a ≡ true }
    requires b { is_digit b ≡ true }
    requires c { is_digit c ≡ true }
    requires d { is_digit d ≡ true }
    ensures { result ≡ four a b c d }
{
    100 * two(a, b) as u16 + two(c, d) as u16
}

// Whether the calendar has a day.
fn is_day(year: u16, month: u8, day: u8) -> bool
    ensures { result ≡ in_calendar year month day }
{
    if year > 9999 || month > 12 || day > 31 {
        return false;
    }
    Date::new(year as i16, month as i8, day as i8).is_ok()
}
