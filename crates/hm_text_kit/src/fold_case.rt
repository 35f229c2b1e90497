//! Folding the case of a text.
ghost use Rattle.std.specs.Prelude.{◌≡◌, IfOk};
ghost use Rattle.hm_text_kit.specs.Folding.{folded_or_mark};

use caseless::default_case_fold_str;
use hm_text_lens::TextLens;
use hm_tree::{Class, Memory, Name};
use std::alloc::Global;

/// Shows the full case folding of a text (The Unicode Standard, section 3.13), or `?` where spaces stand at an end of
/// that.
#[derive(Drop)]
pub struct FoldCase {
    name: Name,
}

impl FoldCase {
    ghost use Rattle.hm_text_kit.specs.Folding.{folding_case};

    /// The lens of this name.
    pub fn new(name: Name) -> FoldCase
        ensures { ⟦<FoldCase as TextLens>⟧.meaning result ≡ folding_case name }
    {
        FoldCase { name }
    }
}

impl TextLens for FoldCase {
    ghost use Rattle.hm_text_kit.specs.Folding.{folding_case};
    ghost use Rattle.hm_text_kit.specs.FoldLaws.{folding_case_lawful};

    ghost meaning = { λ t. folding_case t.name };

    ghost lawful = { λ t. folding_case_lawful t.name };

    fn name(&self) -> &Name {
        &self.name
    }

    fn from_class(&self) -> Class {
        Class::Trimmed
    }

    fn into_class(&self) -> Class {
        Class::Folded
    }

    fn get(&self, alloc: Global, text: &Name) -> Result<Name, Memory> {
        folded(alloc, text.text())
    }

    fn put(&self, alloc: Global, text: &Name, before: Option<&Name>) -> Result<Name, Memory> {
        if let Some(before) = before {
            if folded(alloc, before.text())?.text() == text.text() {
                return before.copy();
            }
        }
        text.copy()
    }
}

// The full case folding of a text where that is trimmed, else `?`.
fn folded(alloc: Global, text: &str) -> Result<Name, Memory>
    ensures { IfOk result (λ folded. folded ≡ folded_or_mark text.now) }
{
    let folded = Name::from_string(alloc, default_case_fold_str(alloc, text)?)?;
    if folded.in_class(Class::Trimmed) {
        return Ok(folded);
    }
    Name::from_text(alloc, "?")
}
