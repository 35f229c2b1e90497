//! The format.
use crate::options::schema;
use crate::reading::read_book;
use crate::writing::write_book;
use hm_format::{Format, FormatFault};
use hm_schema::{Options, Schema};
use hm_tree::Tree;
use std::alloc::Global;

/// Files of comma-separated values (RFC 4180): an address book with a card for each record.
#[derive(Drop)]
pub struct Csv;

impl Csv {
    ghost use Rattle.hm_format.specs.Meanings.{MeanTheSame};
    ghost use Rattle.hm_csv.specs.Writing.{csv};

    /// The format.
    #[tactic(auto, using(hm_format::specs::Meanings::means_itself))]
    pub fn new() -> Csv
        ensures { MeanTheSame (⟦<Csv as Format>⟧.means result) csv }
    {
        Csv
    }
}

impl Format for Csv {
    ghost use Rattle.hm_csv.specs.Writing.{csv};

    ghost means = { λ c. csv };

    fn tag(&self) -> u8 {
        5
    }

    fn schema(&self, alloc: Global, options: &Options) -> Result<Schema, FormatFault> {
        schema(alloc, options)
    }

    fn read(&self, alloc: Global, options: &Options, bytes: &[u8]) -> Result<Tree, FormatFault> {
        read_book(alloc, options, bytes)
    }

    fn write(
        &self,
        alloc: Global,
        options: &Options,
        tree: &Tree,
        before: &[u8],
    ) -> Result<Vec<u8>, FormatFault> {
        write_book(alloc, options, tree, before)
    }
}
