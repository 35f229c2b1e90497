//! Exchanging the words of a table.
ghost use Rattle.std.specs.Prelude.{◌≡◌, IfOk, OnOk};
ghost use Rattle.hm_text_kit.specs.WordTables.{IsTable, IsSwap, HasPartners, HasTexts, PutsPartner, swapped_in};

use hm_text_lens::TextLens;
use hm_tree::{Class, Memory, Name};
use std::alloc::Global;
use std::collections::BTreeMap;

/// Shows each word of a table as the word that stands beside it there. Other texts are shown as they are.
#[derive(Drop)]
pub struct SwapWords {
    name: Name,
    partners: BTreeMap<Name, Name>,
    ghost swaps: { IsSwap (swapped_in partners) },
}

impl SwapWords {
    ghost use Rattle.hm_text_kit.specs.WordTables.{swapping_words};

    /// The lens of this name that exchanges the two words of each pair. It takes memory for a map of all words, so that
    /// a call looks a text up and doesn't go through the pairs.
    pub fn new(name: Name, pairs: Vec<(Name, Name)>) -> Result<SwapWords, Memory>
        requires { IsTable pairs.items }
        ensures { IfOk result (λ made. ⟦<SwapWords as TextLens>⟧.meaning made ≡ swapping_words name pairs.items) }
    {
        Ok(SwapWords {
            name,
            partners: partners_of(pairs)?,
        })
    }

    // The word beside a word; another text as it is.
    fn swapped(&self, text: &Name) -> Result<Name, Memory>
        ensures { IfOk result (λ made. made ≡ swapped_in self.now.partners text.now) }
    {
        match self.partners.get(text) {
            Some(partner) => partner.copy(),
            None => text.copy(),
        }
    }
}

impl TextLens for SwapWords {
    ghost use Rattle.hm_tree.specs.declared.class.Class.TheVariants.{Filled};
    ghost use Rattle.hm_text_kit.specs.Kinds.{exchange};
    ghost use Rattle.hm_text_kit.specs.WordLaws.{swap_lawful};

    ghost meaning = { λ s. exchange s.name Filled (swapped_in s.partners) };

    ghost lawful = { λ s. swap_lawful s.name (swapped_in s.partners) s.swaps };

    fn name(&self) -> &Name {
        &self.name
    }

    fn from_class(&self) -> Class {
        Class::Filled
    }

    fn into_class(&self) -> Class {
        Class::Filled
    }

    fn get(&self, _alloc: Global, text: &Name) -> Result<Name, Memory> {
        self.swapped(text)
    }

    fn put(&self, _alloc: Global, text: &Name, _before: Option<&Name>) -> Result<Name, Memory> {
        self.swapped(text)
    }
}

// The partner of each word.
fn partners_of(mut pairs: Vec<(Name, Name)>) -> Result<BTreeMap<Name, Name>, Memory>
    ensures partners { IfOk result (HasPartners pairs.items) }
    ensures texts { IfOk result HasTexts }
{
    let mut partners = BTreeMap::new(*pairs.allocator());
    while let Some((one, other)) = pairs.pop() {
        put_partner(&mut partners, other.copy()?, one.copy()?)?;
        put_partner(&mut partners, one, other)?;
    }
    Ok(partners)
}

fn put_partner(partners: &mut BTreeMap<Name, Name>, word: Name, partner: Name) -> Result<(), Memory>
    ensures { OnOk result (PutsPartner partners.old partners.new word partner) }
{
    partners.insert(word, partner)?;
    Ok(())
}
