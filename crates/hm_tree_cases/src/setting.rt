//! Names, sets and paths of some texts, and trees and schemas of one text each.
ghost use Rattle.std.specs.Prelude.{IfOk};
ghost use Rattle.hm_schema.specs.Membership.{HasNoTwins};

use hm_schema::Schema;
use hm_schema_text::{SchemaFault, read_schema};
use hm_tree::{Memory, Name, NameSet, Path, Tree};
use hm_tree_text::read_tree;
use std::alloc::Global;
use std::test::Fail;

pub fn names_of(alloc: Global, texts: &[&str]) -> Result<Vec<Name>, Memory> {
    let mut names = Vec::new(alloc);
    for text in texts {
        names.push(Name::from_text(alloc, text)?)?;
    }
    Ok(names)
}

pub fn set_of(alloc: Global, texts: &[&str]) -> Result<NameSet, Memory> {
    NameSet::from_list(names_of(alloc, texts)?)
}

pub fn path_of(alloc: Global, texts: &[&str]) -> Result<Path, Memory> {
    Ok(Path {
        names: names_of(alloc, texts)?,
    })
}

/// The tree of a text without its line feed.
pub fn tree_of(alloc: Global, text: &str) -> Result<Tree, Fail> {
    let line = format!(in alloc; "{text}\n")?;
    Ok(read_tree(alloc, line.as_bytes())?)
}

pub fn schema_of(alloc: Global, text: &str) -> Result<Schema, Fail>
    ensures { IfOk result HasNoTwins }
{
    match read_schema(alloc, text.as_bytes()) {
        Ok(schema) => Ok(schema),
        Err(SchemaFault::Memory) => Err(Memory.into()),
        Err(SchemaFault::BadSchema { .. }) => Err("a schema isn't read".into()),
    }
}

/// Some names, with a slash before each.
pub fn spelled(alloc: Global, names: &[Name]) -> Result<String, Memory> {
    let mut text = String::new(alloc);
    for name in names {
        text.push_str("/")?;
        text.push_str(name.text())?;
    }
    Ok(text)
}

/// An error that tells the case, where it isn't as it should be.
pub fn expect(is: bool, case: &str) -> Result<(), Fail> {
    if is {
        return Ok(());
    }
    Err(Fail::new(format_args!("otherwise: {case}")))
}
