//! The format of files of vCards.
use crate::grammar::VCards;
use hm_format::{Format, FormatFault};
use hm_lines_files::{read_book, schema_of, write_book};
use hm_schema::{Options, Schema};
use hm_tree::Tree;
use std::alloc::Global;

/// Files of vCards (RFC 6350): an address book with a card for each of them.
#[derive(Drop)]
pub struct VCard;

impl VCard {
    ghost use Rattle.hm_format.specs.Meanings.{MeanTheSame};
    ghost use Rattle.hm_lines_files.specs.Writing.{meaning_of};
    ghost use Rattle.hm_vcard.specs.Cards.{vcards};

    /// The format.
    #[tactic(auto, using(hm_format::specs::Meanings::means_itself))]
    pub fn new() -> VCard
        ensures { MeanTheSame (⟦<VCard as Format>⟧.means result) (meaning_of vcards) }
    {
        VCard
    }
}

impl Format for VCard {
    ghost use Rattle.hm_lines_files.specs.Writing.{meaning_of};
    ghost use Rattle.hm_vcard.specs.Cards.{vcards};

    ghost means = { λ f. meaning_of vcards };

    fn tag(&self) -> u8 {
        3
    }

    fn schema(&self, alloc: Global, options: &Options) -> Result<Schema, FormatFault> {
        schema_of(alloc, &VCards, options)
    }

    fn read(&self, alloc: Global, options: &Options, bytes: &[u8]) -> Result<Tree, FormatFault> {
        read_book(alloc, &VCards, options, bytes)
    }

    fn write(
        &self,
        alloc: Global,
        options: &Options,
        tree: &Tree,
        before: &[u8],
    ) -> Result<Vec<u8>, FormatFault> {
        write_book(alloc, &VCards, options, tree, before)
    }
}
