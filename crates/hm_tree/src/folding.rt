//! Full case folding.
ghost use Rattle.std.specs.Prelude.{◌≡◌, ◌↔◌, IsTrue, MatchOption, IsAscii};
ghost use Rattle.hm_tree.specs.Classes.{folding};

use caseless::Caseless;

/// Whether a text equals its own full case folding.
pub fn is_own_folding(text: &str) -> bool
    ensures { IsTrue result ↔ (folding text.now ≡ text.now) }
{
    match is_ascii_folding(text.as_bytes()) {
        Some(own) => own,
        None => text.chars().default_case_fold().eq(text.chars()),
    }
}

// The same of ASCII text, whose folding makes A to Z lower case; none where a character isn't ASCII.
fn is_ascii_folding(bytes: &[u8]) -> Option<bool>
    ensures { MatchOption result (¬ (IsAscii bytes.now)) (λ own. IsTrue own ↔ (folding bytes.now ≡ bytes.now)) }
{
    let mut is_lower = true;
    for byte in bytes {
        if *byte > 127 {
            return None;
        }
        is_lower = is_lower & !byte.is_ascii_uppercase();
    }
    Some(is_lower)
}
