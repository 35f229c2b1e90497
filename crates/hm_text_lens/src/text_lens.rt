//! Lenses between texts.
ghost use Rattle.std.specs.Prelude.{◌≡◌, IfOk, option_copied};
ghost use Rattle.hm_text_lens.specs.Meanings.{TextMeaning, IsLawful, IsFrom, IsInto, IsBefore};

use hm_tree::{Class, Memory, Name};
use std::alloc::Global;

/// A lens between the texts of one class and those of another.
pub trait TextLens: Drop {
    /// What it means.
    ghost meaning: { Self → TextMeaning };

    /// The name by which lenses between trees call it.
    fn name(&self) -> &Name
        ensures name { result.now ≡ (meaning self.now).name }
        ensures lawful { IsLawful (meaning self.now) };

    /// The class of the texts that are read.
    fn from_class(&self) -> Class
        ensures { result ≡ (meaning self.now).from_class };

    /// The class of the texts that are shown.
    fn into_class(&self) -> Class
        ensures { result ≡ (meaning self.now).into_class };

    /// What it shows of a text.
    fn get(&self, alloc: Global, text: &Name) -> Result<Name, Memory>
        requires { IsFrom (meaning self.now) text.now }
        ensures { IfOk result (λ shown. shown ≡ (meaning self.now).get_of text.now) };

    /// The text that comes of a shown one and of the text from before, if there was one.
    fn put(&self, alloc: Global, text: &Name, before: Option<&Name>) -> Result<Name, Memory>
        requires text { IsInto (meaning self.now) text.now }
        requires before { IsBefore (meaning self.now) (option_copied before) }
        ensures { IfOk result (λ made. made ≡ (meaning self.now).put_of text.now (option_copied before.entry)) };

    /// The laws, where the type is known. Where it isn't, `name` has them.
    ghost lawful: { (x : Self) → IsLawful (meaning x) };
}
