//! Writing an address book behind a file of a form.
ghost use Rattle.hm_schema.specs.Values.{options_value};
ghost use Rattle.hm_format.specs.Formats.{MayWrite, depth_over};
ghost use Rattle.hm_format.specs.Answers.{Writes};
ghost use Rattle.hm_lines_files.specs.Writing as files;
ghost use Rattle.hm_lines_files.specs.Writing.{meaning_of};

use crate::book::write_layout;
use crate::grammar::Grammar;
use crate::opening::{fault_of, full_lines, text_of};
use crate::options::shown_by;
use hm_format::FormatFault;
use hm_lines::without_folds;
use hm_schema::Options;
use hm_tree::{DEEPEST, Tree};
use std::alloc::Global;

/// The bytes of an address book behind those from before, which stay where they are read as the book; or how deep it is, where
/// that is over the limit.
pub fn write_book<G: Grammar>(
    alloc: Global,
    grammar: &G,
    options: &Options,
    tree: &Tree,
    before: &[u8],
) -> Result<Vec<u8>, FormatFault>
    requires { MayWrite (meaning_of (G.form grammar.now)) (options_value options.now) tree.now before.now }
    ensures { Writes (depth_over tree.now) (files.Writes (G.form grammar.now) (options_value options.now) tree.now before.now) result }
{
    let _tag = grammar.tag();
    let depth = tree.depth();
    if depth > DEEPEST {
        return Err(FormatFault::TooDeep { depth });
    }
    let template = grammar.template(alloc)?;
    let shown = shown_by(alloc, &grammar.properties(alloc)?, options)?;
    let unfolded = without_folds(alloc, before)?;
    let text = text_of(&unfolded)?;
    let lines = full_lines(alloc, text)?;
    match grammar.layout(alloc, &shown, &lines) {
        Ok(layout) => Ok(write_layout(alloc, &template, &shown, &layout, &lines, tree, before)?),
        Err(stop) => Err(fault_of(text, stop)),
    }
}
