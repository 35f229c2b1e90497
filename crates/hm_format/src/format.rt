//! Formats.
ghost use Rattle.std.specs.Prelude.{◌≡◌};
ghost use Rattle.hm_schema.specs.Values.{options_value};
ghost use Rattle.hm_format.specs.Formats.{FormatMeaning, IsLawful, MayRead, MayWrite};
ghost use Rattle.hm_format.specs.Options.{AreSound};
ghost use Rattle.hm_format.specs.Answers.{GivesSchema, Reads, Writes};

use crate::fault::FormatFault;
use hm_schema::{Options, Schema};
use hm_tree::Tree;
use std::alloc::Global;

/// How files of a kind are read as trees and written anew.
pub trait Format: Drop {
    /// What it means.
    ghost means: { Self → FormatMeaning };

    /// The number of the format.
    fn tag(&self) -> u8
        ensures tag { result ≡ (means self.now).tag }
        ensures lawful { IsLawful (means self.now) };

    /// The schema of its trees under options, or the first key that is bad.
    fn schema(&self, alloc: Global, options: &Options) -> Result<Schema, FormatFault>
        requires { AreSound (options_value options.now) }
        ensures { GivesSchema ((means self.now).schema_of (options_value options.now)) result };

    /// The tree of a file, or why it has none.
    fn read(&self, alloc: Global, options: &Options, bytes: &[u8]) -> Result<Tree, FormatFault>
        requires { MayRead (means self.now) (options_value options.now) }
        ensures { Reads ((means self.now).reads (options_value options.now) bytes.now) result };

    /// The file of a tree, behind the file from before; `TooDeep` where the tree is over the limit.
    fn write(
        &self,
        alloc: Global,
        options: &Options,
        tree: &Tree,
        before: &[u8],
    ) -> Result<Vec<u8>, FormatFault>
        requires { MayWrite (means self.now) (options_value options.now) tree.now before.now }
        ensures { Writes ((means self.now).over tree.now) ((means self.now).writes (options_value options.now) tree.now before.now) result };
}
