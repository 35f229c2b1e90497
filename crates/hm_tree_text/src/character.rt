//! How a UTF-8 character goes on that has begun.
ghost use Rattle.std.specs.Prelude.{◌≡◌, ◌≤◌, ◌<◌, ◌∷◌, List, ℕ, MatchOption};
ghost use Rattle.std.specs.Str.{continuation_len};
ghost use Rattle.std.specs.Str.Lossy.{second_byte_min, second_byte_max};
ghost use Rattle.hm_tree_text.specs.Characters.{Completes, IsOpen, GoesOn, IsBegunBy};

/// How many bytes of a character are missing, and between which the next one is.
#[derive(Clone, Copy)]
pub struct Character {
    missing: u8,
    low: u8,
    high: u8,
}

/// A character of which nothing is missing.
pub const COMPLETE: Character = Character {
    missing: 0,
    low: 0x80,
    high: 0xbf,
};

impl Character {
    /// How it goes on behind a byte; none where it doesn't go on with this byte.
    pub fn next(self, byte: u8) -> Option<Character>
        ensures { MatchOption result ((rest : List ℕ) → ¬ (Completes self (byte ∷ rest))) (λ next. IsOpen next × GoesOn self byte next) }
    {
        if self.missing == 0 {
            return begun_by(byte);
        }
        if byte < self.low {
            return None;
        }
        if self.high < byte {
            return None;
        }
        Some(Character {
            missing: self.missing - 1,
            low: 0x80,
            high: 0xbf,
        })
    }
}

// How a character goes on that begins with a byte; none where none does.
fn begun_by(byte: u8) -> Option<Character>
    ensures { MatchOption result ((rest : List ℕ) → ¬ (IsBegunBy byte rest)) (λ next. IsOpen next × ((rest : List ℕ) → (IsBegunBy byte rest → Completes next rest) × (Completes next rest → IsBegunBy byte rest))) }
{
    if byte < 0x80 {
        return Some(COMPLETE);
    }
    if byte < 0xc2 {
        return None;
    }
    if byte > 0xf4 {
        return None;
    }
    Some(Character {
        missing: missing_behind(byte),
        low: second_low(byte),
        high: second_high(byte),
    })
}

// How many bytes follow a character's first byte.
fn missing_behind(byte: u8) -> u8
    ensures { result ≡ continuation_len byte }
{
    if byte < 0x80 {
        0
    } else if byte < 0xe0 {
        1
    } else if byte < 0xf0 {
        2
    } else {
        3
    }
}

// The least byte that may follow a first byte of a character of more than one.
fn second_low(byte: u8) -> u8
    ensures { result ≡ second_byte_min byte }
{
    if byte == 0xe0 {
        0xa0
    } else if byte == 0xf0 {
        0x90
    } else {
        0x80
    }
}

// The greatest byte that may follow it.
fn second_high(byte: u8) -> u8
    ensures { result ≡ second_byte_max byte }
{
    if byte == 0xed {
        0x9f
    } else if byte == 0xf4 {
        0x8f
    } else {
        0xbf
    }
}
