//! Writing pieces as a field.
ghost use Rattle.std.specs.Prelude.{◌≡◌, ◌++◌, IsUtf8, IfOk, OnOk};
ghost use Rattle.hm_csv_fields.specs.Pieces.{spelled, written};
ghost use Rattle.hm_csv_fields.specs.Cutting.{lent, AreLentUtf8};

use crate::cutting::is_special;
use hm_tree::Memory;
use std::alloc::Global;

/// Pieces with strokes between them.
pub fn write_pieces(alloc: Global, pieces: &[&[u8]]) -> Result<Vec<u8>, Memory>
    requires utf8 { AreLentUtf8 pieces.now }
    ensures made { IfOk result (λ made. made.items ≡ written (lent pieces.now)) }
    ensures utf8 { IfOk result (λ made. IsUtf8 made.items) }
{
    let mut made = Vec::new(alloc);
    for place in 0..pieces.len() {
        if place > 0 {
            made.push(b'|')?;
        }
        append_spelled(&mut made, pieces[place])?;
    }
    Ok(made)
}

// Puts the spelling of a piece behind some bytes.
fn append_spelled(made: &mut Vec<u8>, piece: &[u8]) -> Result<(), Memory>
    ensures { OnOk result (made.new.items ≡ made.old.items ++ spelled piece.now) }
{
    for byte in piece {
        if is_special(*byte) {
            made.push(b'\\')?;
        }
        made.push(*byte)?;
    }
    Ok(())
}
