//! The format.
use crate::writing::write_file;
use hm_format::{Format, FormatFault};
use hm_marks_schema::schema_under;
use hm_netscape_files::read_bookmarks;
use hm_schema::{Options, Schema};
use hm_tree::Tree;
use std::alloc::Global;

/// Files of Netscape bookmarks, the HTML in which browsers export bookmarks.
#[derive(Drop)]
pub struct Netscape;

impl Netscape {
    ghost use Rattle.hm_format.specs.Meanings.{MeanTheSame};
    ghost use Rattle.hm_netscape_marks.specs.Writing.{netscape_marks};

    /// The format.
    #[tactic(auto, using(hm_format::specs::Meanings::means_itself))]
    pub fn new() -> Netscape
        ensures { MeanTheSame (⟦<Netscape as Format>⟧.means result) netscape_marks }
    {
        Netscape
    }
}

impl Format for Netscape {
    ghost use Rattle.hm_netscape_marks.specs.Writing.{netscape_marks};

    ghost means = { λ n. netscape_marks };

    fn tag(&self) -> u8 {
        2
    }

    fn schema(&self, alloc: Global, options: &Options) -> Result<Schema, FormatFault> {
        schema_under(alloc, options)
    }

    fn read(&self, alloc: Global, _options: &Options, bytes: &[u8]) -> Result<Tree, FormatFault> {
        read_bookmarks(alloc, bytes)
    }

    fn write(
        &self,
        alloc: Global,
        _options: &Options,
        tree: &Tree,
        before: &[u8],
    ) -> Result<Vec<u8>, FormatFault> {
        write_file(alloc, tree, before)
    }
}
