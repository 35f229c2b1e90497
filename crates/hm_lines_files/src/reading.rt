//! Reading a file of a form as an address book.
ghost use Rattle.std.specs.Prelude.{◌≡◌, IfOk, IfErr};
ghost use Rattle.hm_schema.specs.Values.{options_value, OptionsValue};
ghost use Rattle.hm_format.specs.Formats.{MayRead};
ghost use Rattle.hm_format.specs.Answers.{Reads};
ghost use Rattle.hm_lines_files.specs.Writing.{meaning_of};
ghost use Rattle.hm_lines_files.specs.Forms.{shown_of};
ghost use Rattle.hm_lines_files.specs.Stops.{AreOf, IsStop};
ghost use Rattle.hm_lines_files.specs.Lent.{texts, layout_of, HaveLines};
ghost use Rattle.hm_lines_files.specs.Files as files;

use crate::book::book_of;
use crate::component::Layout;
use crate::grammar::Grammar;
use crate::layout_fault::LayoutFault;
use crate::opening::{fault_of, full_lines, text_of};
use crate::options::shown_by;
use hm_format::FormatFault;
use hm_lines::without_folds;
use hm_schema::Options;
use hm_tree::{Name, Tree};
use std::alloc::Global;

/// The address book of a file of a form, or why it has none.
pub fn read_book<G: Grammar>(
    alloc: Global,
    grammar: &G,
    options: &Options,
    bytes: &[u8],
) -> Result<Tree, FormatFault>
    requires { MayRead (meaning_of (G.form grammar.now)) (options_value options.now) }
    ensures { Reads (files.Reads (G.form grammar.now) (options_value options.now) bytes.now) result }
{
    let _tag = grammar.tag();
    let template = grammar.template(alloc)?;
    let shown = shown_by(alloc, &grammar.properties(alloc)?, options)?;
    let unfolded = without_folds(alloc, bytes)?;
    let text = text_of(&unfolded)?;
    let lines = full_lines(alloc, text)?;
    match laid_out(alloc, grammar, &shown, lines) {
        Ok(layout) => book_of(alloc, &template.key, &shown, layout),
        Err(stop) => Err(fault_of(text, stop)),
    }
}

// The layout of lines, whose list is let go.
fn laid_out<'a, G: Grammar>(
    alloc: Global,
    grammar: &G,
    shown: &[(Name, bool)],
    lines: Vec<&'a str>,
) -> Result<Layout<'a>, LayoutFault>
    ensures layout { (o : OptionsValue) → shown.now ≡ shown_of (G.form grammar.now) o → IfOk result (λ found. AreOf (G.form grammar.now) o (texts lines.entry.items) (layout_of found)) }
    ensures lines { IfOk result (λ found. HaveLines found.pieces.items) }
    ensures stop { (o : OptionsValue) → shown.now ≡ shown_of (G.form grammar.now) o → IfErr result (IsStop (G.form grammar.now) o (texts lines.entry.items)) }
{
    grammar.layout(alloc, shown, &lines)
}
