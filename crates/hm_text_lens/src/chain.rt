//! One text lens behind another.
ghost use Rattle.std.specs.Prelude.{◌≡◌};
ghost use Rattle.hm_text_lens.specs.Chains.{chain_of};

use crate::text_lens::TextLens;
use hm_tree::{Class, Memory, Name};
use std::alloc::Global;

// Two text lenses, of which the second reads the texts that the first shows.
#[derive(Drop)]
struct Parts<F: TextLens, G: TextLens> {
    first: F,
    second: G,
    ghost classes: { (F.meaning first).into_class ≡ (G.meaning second).from_class },
}

/// Two text lenses as one (TOPLAS 2007: the composition of lenses). It shows what the second shows of what the first
/// shows, and what it puts is put by the second and then by the first.
#[derive(Drop)]
pub struct Chain<F: TextLens, G: TextLens> {
    name: Name,
    parts: Parts<F, G>,
}

impl<F: TextLens, G: TextLens> Chain<F, G> {
    /// The chain of two text lenses, under a name of its own.
    pub fn new(name: Name, first: F, second: G) -> Chain<F, G>
        requires { (F.meaning first).into_class ≡ (G.meaning second).from_class }
        ensures { ⟦<Chain<F, G> as TextLens>⟧.meaning result ≡ chain_of name (F.meaning first) (G.meaning second) }
    {
        Chain {
            name,
            parts: Parts { first, second },
        }
    }
}

impl<F: TextLens, G: TextLens> TextLens for Chain<F, G> {
    ghost use Rattle.hm_text_lens.specs.ChainLaws.{chain_lawful};

    ghost meaning = { λ c. chain_of c.name (F.meaning c.parts.first) (G.meaning c.parts.second) };

    ghost lawful = { λ c. chain_lawful c.name (F.meaning c.parts.first) (G.meaning c.parts.second) (F.lawful c.parts.first) (G.lawful c.parts.second) c.parts.classes };

    fn name(&self) -> &Name {
        &self.name
    }

    fn from_class(&self) -> Class {
        self.parts.first.from_class()
    }

    fn into_class(&self) -> Class {
        self.parts.second.into_class()
    }

    fn get(&self, alloc: Global, text: &Name) -> Result<Name, Memory> {
        let middle = self.parts.first.get(alloc, text)?;
        self.parts.second.get(alloc, &middle)
    }

    fn put(&self, alloc: Global, text: &Name, before: Option<&Name>) -> Result<Name, Memory> {
        let shown = match before {
            Some(before) => Some(self.parts.first.get(alloc, before)?),
            None => None,
        };
        let middle = self.parts.second.put(alloc, text, shown.as_ref())?;
        self.parts.first.put(alloc, &middle, before)
    }
}
