//! Fields that hold many texts, as a column of a table does: `+1 555 0101|+1 555 0102`.
//!
//! ```text
//! field = (nothing) / piece *( "|" piece )
//! piece = *( "\|" / "\\" / any byte but "|" )
//! ```
//!
//! In a piece `\|` and `\\` stand for `|` and `\`, and another `\` for itself (`cutting`). A field shows the set of the
//! cleaned texts of its pieces, but for those of spaces alone (`showing`, `specs/Texts`). Where it is to show another
//! set it is made anew: a piece whose text is gone is dropped, the others stay in their order, and new texts follow in
//! the order of their bytes. It spells each piece that stays anew, so a caller leaves a field alone whose set stays. It
//! knows no records.
//!
//! Proved: `pieces` cuts a field of many texts, and `texts` gives the set of the texts that it shows (`specs/Pieces`,
//! `specs/Texts`). `rewrite` makes of a field one for another set, which that shows if its texts are clean and not of
//! spaces alone. `write_pieces` writes pieces with strokes between them; what is written of pieces is cut into the same
//! ones, but for one empty piece alone, and shows what they show (`proofs/Laws`).
#![tactic(auto)]

mod cutting;
mod showing;
mod writing;

pub use cutting::{has_special, pieces};
pub use showing::{rewrite, texts};
pub use writing::write_pieces;
