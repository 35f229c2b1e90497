//! Texts that are too large to be looked at.
ghost use Rattle.std.specs.Prelude.{◌≡◌, ◌↔◌, ◌&&◌, IsTrue};
ghost use Rattle.hm_focal_terms.specs.Limits.{behind_byte, is_outside, is_opening, is_closing, IsOversized};

/// Where a byte stands.
#[derive(Clone, Copy, Drop)]
pub enum Place {
    /// Outside names between quotes.
    Outside,
    /// In such a name, or where it ends.
    Inside,
    /// The same, behind a backslash.
    Escaped,
}

impl Place {
    // Where the byte behind this one stands.
    fn behind(self, byte: u8) -> Place
        ensures { result ≡ behind_byte self byte }
    {
        match self {
            Place::Outside => {
                if byte == b'"' {
                    Place::Inside
                } else {
                    Place::Outside
                }
            }
            Place::Inside => {
                if byte == b'"' {
                    Place::Outside
                } else if byte == b'\\' {
                    Place::Escaped
                } else {
                    Place::Inside
                }
            }
            Place::Escaped => Place::Inside,
        }
    }

    // Whether a byte of some kind is counted.
    fn counts(self, kind: bool) -> bool
        ensures { result ≡ (is_outside self && kind) }
    {
        match self {
            Place::Outside => kind,
            _ => false,
        }
    }
}

fn is_opening(byte: u8) -> bool
    ensures { result ≡ is_opening byte }
{
    byte == b'(' || byte == b'{'
}

fn is_closing(byte: u8) -> bool
    ensures { result ≡ is_closing byte }
{
    byte == b')' || byte == b'}'
}

// How many parentheses and braces may be open.
const MOST_OPEN: usize = 200;

const MOST_SEMICOLONS: usize = 1999;

/// Whether too many parentheses and braces are open at once, or there are too many semicolons, outside names between
/// quotes.
pub fn is_oversized(text: &[u8]) -> bool
    ensures { IsTrue result ↔ IsOversized text.now }
{
    let mut place = Place::Outside;
    let mut opened = 0;
    let mut closed = 0;
    let mut semicolons = 0;
    for byte in text {
        opened += usize::from(place.counts(is_opening(*byte)));
        closed += usize::from(place.counts(is_closing(*byte)));
        semicolons += usize::from(place.counts(*byte == b';'));
        if closed + MOST_OPEN < opened {
            return true;
        }
        place = place.behind(*byte);
    }
    semicolons > MOST_SEMICOLONS
}
