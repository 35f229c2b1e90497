//! The calls of boxed formats, each by itself.
ghost use Rattle.hm_schema.specs.Values.{options_value};
ghost use Rattle.hm_format.specs.Formats.{IsLawful, MayRead, MayWrite};
ghost use Rattle.hm_format.specs.Answers.{Reads, Writes};

use hm_format::{Format, FormatFault};
use hm_schema::Options;
use hm_tree::Tree;
use std::alloc::Global;

/// The laws of a format.
pub fn laws(format: &Box<dyn Format>)
    ensures { IsLawful (means format.now) }
{
    format.tag();
}

/// The tree of a file.
pub fn read(
    format: &Box<dyn Format>,
    alloc: Global,
    options: &Options,
    bytes: &[u8],
) -> Result<Tree, FormatFault>
    requires { MayRead (means format.now) (options_value options.now) }
    ensures { Reads ((means format.now).reads (options_value options.now) bytes.now) result }
{
    format.read(alloc, options, bytes)
}

/// The file of a tree.
pub fn write(
    format: &Box<dyn Format>,
    alloc: Global,
    options: &Options,
    tree: &Tree,
    before: &[u8],
) -> Result<Vec<u8>, FormatFault>
    requires { MayWrite (means format.now) (options_value options.now) tree.now before.now }
    ensures { Writes ((means format.now).over tree.now) ((means format.now).writes (options_value options.now) tree.now before.now) result }
{
    format.write(alloc, options, tree, before)
}
