//! Cutting a field into its pieces.
ghost use Rattle.std.specs.Prelude.{◌≡◌, ◌∷◌, [], ℕ, List, true, false, All, IsUtf8, IfOk, OnOk};
ghost use Rattle.std.specs.List.{list_any};
ghost use Rattle.hm_csv_fields.specs.Pieces.{pieces as pieces_in, pieces_behind, is_special, stroke};
ghost use Rattle.hm_csv_fields.specs.Cutting.{all_bytes, joined};

use hm_tree::Memory;
use std::alloc::Global;

// What was read of a field: its whole pieces, the piece that is read, and whether a `\` stands before what is left.
#[derive(Drop)]
struct Cut {
    whole: Vec<Vec<u8>>,
    piece: Vec<u8>,
    behind_backslash: bool,
}

/// The pieces of a field, each of which is UTF-8.
pub fn pieces(alloc: Global, field: &str) -> Result<Vec<Vec<u8>>, Memory>
    ensures pieces { IfOk result (λ found. all_bytes found ≡ pieces_in field.now) }
    ensures utf8 { IfOk result (λ found. All (λ p. IsUtf8 p.items) found.items) }
{
    cut_bytes(alloc, field.as_bytes())
}

// The pieces of some bytes.
fn cut_bytes(alloc: Global, field: &[u8]) -> Result<Vec<Vec<u8>>, Memory>
    ensures { IfOk result (λ found. all_bytes found ≡ pieces_in field.now) }
{
    if field.is_empty() {
        return Ok(Vec::new(alloc));
    }
    if has_special(field) {
        cut_each(alloc, field)
    } else {
        one_piece(alloc, field)
    }
}

/// Whether there is a `|` or a `\` in some bytes. A field without them is one piece, as it stands.
pub fn has_special(bytes: &[u8]) -> bool
    ensures { result ≡ list_any is_special bytes.now }
{
    bytes.iter().any(|byte| is_special(*byte))
}

// The piece of bytes without `|` and `\`. Nearly all fields are such, so it is copied at once.
#[tactic(auto, using(crate::proofs::Led::one_piece))]
fn one_piece(alloc: Global, bytes: &[u8]) -> Result<Vec<Vec<u8>>, Memory>
    requires { list_any is_special bytes.now ≡ false }
    ensures { IfOk result (λ found. all_bytes found ≡ pieces_behind false bytes.now) }
{
    let mut piece = Vec::with_capacity(alloc, bytes.len())?;
    piece.extend_from_slice(bytes)?;
    Ok(vec![in alloc; piece]?)
}

// The pieces of bytes that may have a `|` or a `\`, read byte by byte.
fn cut_each(alloc: Global, bytes: &[u8]) -> Result<Vec<Vec<u8>>, Memory>
    ensures { IfOk result (λ found. all_bytes found ≡ pieces_behind false bytes.now) }
{
    let mut cut = Cut {
        whole: Vec::new(alloc),
        piece: Vec::new(alloc),
        behind_backslash: false,
    };
    for byte in bytes {
        take_byte(alloc, &mut cut, *byte)?;
    }
    finish(cut)
}

pub(crate) fn is_special(byte: u8) -> bool
    ensures { result ≡ is_special byte }
{
    byte == b'|' || byte == b'\\'
}

// Reads one byte more.
fn take_byte(alloc: Global, cut: &mut Cut, byte: u8) -> Result<(), Memory>
    ensures { OnOk result ((rest : List ℕ) → joined cut.new rest ≡ joined cut.old (byte ∷ rest)) }
{
    if cut.behind_backslash {
        return take_behind(cut, byte);
    }
    match byte {
        b'|' => end_piece(alloc, cut),
        b'\\' => {
            cut.behind_backslash = true;
            Ok(())
        }
        _ => Ok(cut.piece.push(byte)?),
    }
}

// Reads a byte behind a `\`.
fn take_behind(cut: &mut Cut, byte: u8) -> Result<(), Memory>
    requires { cut.old.behind_backslash ≡ true }
    ensures { OnOk result ((rest : List ℕ) → joined cut.new rest ≡ joined cut.old (byte ∷ rest)) }
{
    cut.behind_backslash = false;
    if is_special(byte) {
        return Ok(cut.piece.push(byte)?);
    }
    cut.piece.push(b'\\')?;
    Ok(cut.piece.push(byte)?)
}

// Ends the piece that is read, behind a `|`.
fn end_piece(alloc: Global, cut: &mut Cut) -> Result<(), Memory>
    requires { cut.old.behind_backslash ≡ false }
    ensures { OnOk result ((rest : List ℕ) → joined cut.new rest ≡ joined cut.old (stroke ∷ rest)) }
{
    let piece = std::mem::replace(&mut cut.piece, Vec::new(alloc));
    Ok(cut.whole.push(piece)?)
}

// All pieces, where nothing is left to be read.
fn finish(cut: Cut) -> Result<Vec<Vec<u8>>, Memory>
    ensures { IfOk result (λ all. all_bytes all ≡ joined cut []) }
{
    let Cut {
        mut whole,
        mut piece,
        behind_backslash,
    } = cut;
    if behind_backslash {
        piece.push(b'\\')?;
    }
    whole.push(piece)?;
    Ok(whole)
}
