//! The format of files that are the text of a tree.
ghost use Rattle.std.specs.Prelude.{◌≡◌, IfOk};
ghost use Rattle.hm_schema.specs.Values.{options_value};
ghost use Rattle.hm_format.specs.Options.{place_of};
ghost use Rattle.hm_format.specs.Plain.{plain_rules, plain_schema, root_place, IsAccepted, ReadsText};

use crate::fault::FormatFault;
use crate::format::Format;
use crate::keys::{Key, first_bad_key, same_text, values_of};
use hm_schema::{NodeId, Options, Schema, copy_nodes};
use hm_tree::{DEEPEST, Memory, Name, Tree};
use hm_tree_text::{TextFault, read_tree, write_tree};
use std::alloc::Global;

// How deep a tree is told to be that is too deep to be read.
const TOO_DEEP: usize = 1001;

// The one key: the node of the root.
const ROOT: Key<'static> = Key {
    name: "root",
    most: Some(1),
    required: true,
    declared: true,
};

/// The format of files that are the text of a tree, a member of the nodes that the lens file declares with one of them,
/// `root`, as the root.
#[derive(Drop)]
pub struct Plain;

impl Plain {
    ghost use Rattle.hm_format.specs.Meanings.{MeanTheSame};
    ghost use Rattle.hm_format.specs.Plain.{plain};

    /// The format.
    #[tactic(auto, using(crate::specs::Meanings::means_itself))]
    pub fn new() -> Plain
        ensures { MeanTheSame (⟦<Plain as Format>⟧.means result) plain }
    {
        Plain
    }
}

impl Format for Plain {
    ghost use Rattle.hm_format.specs.Plain.{plain};

    ghost means = { λ p. plain };

    fn tag(&self) -> u8 {
        6
    }

    fn schema(&self, alloc: Global, options: &Options) -> Result<Schema, FormatFault> {
        match first_bad_key(alloc, &[ROOT], options)? {
            Some(key) => Err(FormatFault::BadOption { key }),
            None => Ok(declared(alloc, options)?),
        }
    }

    fn read(&self, alloc: Global, options: &Options, bytes: &[u8]) -> Result<Tree, FormatFault> {
        let tree = read_text(alloc, bytes)?;
        let schema = declared(alloc, options)?.indexed()?;
        match schema.first_outside(alloc, &tree)? {
            None => Ok(tree),
            Some(path) => Err(FormatFault::Outside { path }),
        }
    }

    fn write(
        &self,
        alloc: Global,
        _options: &Options,
        tree: &Tree,
        _before: &[u8],
    ) -> Result<Vec<u8>, FormatFault> {
        let depth = tree.depth();
        if depth > DEEPEST {
            return Err(FormatFault::TooDeep { depth });
        }
        Ok(write_tree(alloc, tree)?)
    }
}

// The nodes that a lens file declares, with the one that is named as the root.
fn declared(alloc: Global, options: &Options) -> Result<Schema, Memory>
    requires { IsAccepted (options_value options.now) }
    ensures { IfOk result (λ schema. schema ≡ plain_schema (options_value options.now)) }
{
    let nodes = copy_nodes(alloc, &options.types)?;
    let place = root_place(values_of(&options.pairs, "root"), &options.type_names);
    Ok(Schema::new(nodes, NodeId { place }))
}

// The place of the node that is named.
fn root_place(names: &[Name], declared: &[Name]) -> usize
    ensures { result ≡ root_place names.now declared.now }
{
    match names.first() {
        Some(name) => place_of(name, declared),
        None => 0,
    }
}

// How many names stand before the first that is this one.
fn place_of(name: &Name, names: &[Name]) -> usize
    ensures { result ≡ place_of name.now names.now }
{
    for place in 0..names.len() {
        if same_text(name.text(), names[place].text()) {
            return place;
        }
    }
    names.len()
}

// The tree of which the bytes are the text; they have to be UTF-8 first.
fn read_text(alloc: Global, bytes: &[u8]) -> Result<Tree, FormatFault>
    ensures { ReadsText bytes.now result }
{
    if let Err(error) = std::str::from_utf8(bytes) {
        return Err(FormatFault::NotUtf8 {
            at: error.valid_up_to(),
        });
    }
    match read_tree(alloc, bytes) {
        Ok(tree) => Ok(tree),
        Err(TextFault::BadTree { at }) => Err(FormatFault::BadItem { number: at }),
        Err(TextFault::TooDeep) => Err(FormatFault::TooDeep { depth: TOO_DEEP }),
        Err(TextFault::Memory) => Err(FormatFault::Memory),
    }
}
