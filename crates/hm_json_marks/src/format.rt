//! The format.
use crate::reading::read_file;
use crate::writing::write_file;
use hm_format::{Format, FormatFault};
use hm_marks_schema::schema_under;
use hm_schema::{Options, Schema};
use hm_tree::Tree;
use std::alloc::Global;

/// Bookmark files of JSON, as Chrome and Chromium keep them.
#[derive(Drop)]
pub struct Chrome;

impl Chrome {
    ghost use Rattle.hm_format.specs.Meanings.{MeanTheSame};
    ghost use Rattle.hm_json_marks.specs.Writing.{json_marks};

    /// The format.
    #[tactic(auto, using(hm_format::specs::Meanings::means_itself))]
    pub fn new() -> Chrome
        ensures { MeanTheSame (⟦<Chrome as Format>⟧.means result) json_marks }
    {
        Chrome
    }
}

impl Format for Chrome {
    ghost use Rattle.hm_json_marks.specs.Writing.{json_marks};

    ghost means = { λ c. json_marks };

    fn tag(&self) -> u8 {
        1
    }

    fn schema(&self, alloc: Global, options: &Options) -> Result<Schema, FormatFault> {
        schema_under(alloc, options)
    }

    fn read(&self, alloc: Global, _options: &Options, bytes: &[u8]) -> Result<Tree, FormatFault> {
        read_file(alloc, bytes)
    }

    fn write(
        &self,
        alloc: Global,
        _options: &Options,
        tree: &Tree,
        before: &[u8],
    ) -> Result<Vec<u8>, FormatFault> {
        write_file(alloc, tree, before)
    }
}
