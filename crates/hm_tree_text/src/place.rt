//! Places in the bytes.
ghost use Rattle.std.specs.Prelude.{◌≡◌, ◌+◌, ◌∷◌, [], List, ℕ, IsTrue, drop};
ghost use Rattle.hm_tree_text.specs.Reading.{StandsAt};

/// Whether a byte stands at a place.
pub fn is_at(bytes: &[u8], at: usize, byte: u8) -> bool
    ensures there { IsTrue result → StandsAt bytes.now at (byte ∷ []) (at + 1) }
    ensures only { (rest : List ℕ) → drop at bytes.now ≡ byte ∷ rest → IsTrue result }
{
    at < bytes.len() && bytes[at] == byte
}
