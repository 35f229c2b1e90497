//! Files that are written anew.
ghost use Rattle.std.specs.Prelude.{◌≡◌, ◌↔◌, ℕ, List, IfOk, OnOk, None, Ok, IsTrue, IsUtf8};
ghost use Rattle.hm_tree.specs.Nodes.{Tree as TreeValue};
ghost use Rattle.hm_format.specs.Answers.{Writes};
ghost use Rattle.hm_schema.specs.Membership.{IsMemberTree};
ghost use Rattle.hm_marks_schema.specs.Members.{IsAt};
ghost use Rattle.hm_marks_schema.specs.Nesting.{marks_over};
ghost use Rattle.hm_marks_schema.specs.Schema.{marks_schema};
ghost use Rattle.serde_json.specs.Data.{object, Members};
ghost use Rattle.serde_json.specs.View.{view, members_view};
ghost use Rattle.hm_json_documents.specs.Documents.{IsDocument};
ghost use Rattle.hm_json_marks.specs.Roots.{bar_key, other_key};
ghost use Rattle.hm_json_marks.specs.Files.{IsFile, JsonReads};
ghost use Rattle.hm_json_marks.specs.Writing.{IsWrittenAnew, JsonWrites};
ghost use Rattle.hm_json_marks.specs.Rewriting.{HasRootAt, IsRootAnew, AreBothWritten, HasBothRoots, AreRootsWritten};

use crate::reading::tree_of;
use crate::seeking::differs;
use hm_format::FormatFault;
use hm_json_documents::{read_document, write_document};
use hm_json_nodes::{folder_written, replace, set};
use hm_marks_schema::{folders_of, over_limits};
use hm_tree::{Memory, Tree};
use serde_json::{Map, Value};
use std::alloc::Global;

/// The file of a tree behind the file from before; `TooDeep` where the tree is over a limit.
pub(crate) fn write_file(alloc: Global, tree: &Tree, before: &[u8]) -> Result<Vec<u8>, FormatFault>
    requires member { IsMemberTree marks_schema tree.now }
    requires read { (old : TreeValue) × JsonReads before.now (Ok old) }
    ensures { Writes (marks_over tree.now) (JsonWrites tree.now before.now) result }
{
    if let Some(depth) = over_limits(tree) {
        return Err(FormatFault::TooDeep { depth });
    }
    match std::str::from_utf8(before) {
        Ok(text) => Ok(text_for(alloc, tree, text)?),
        Err(_) => unreachable!(),
    }
}

// The same of a text, for a tree within the limits.
fn text_for(alloc: Global, tree: &Tree, text: &str) -> Result<Vec<u8>, Memory>
    requires member { IsMemberTree marks_schema tree.now }
    requires within { marks_over tree.now ≡ None }
    requires read { (old : TreeValue) × JsonReads text.now (Ok old) }
    ensures { IfOk result (λ bytes. JsonWrites tree.now text.now bytes.items) }
{
    match read_document(alloc, text)? {
        Some(file) => {
            if is_read_as(alloc, &file, tree)? {
                copied(alloc, text.as_bytes())
            } else {
                written_over(alloc, tree, text, file)
            }
        }
        None => unreachable!(),
    }
}

// Whether the document of a text that is read is read as a tree.
fn is_read_as(alloc: Global, file: &Value, tree: &Tree) -> Result<bool, Memory>
    requires member { IsMemberTree marks_schema tree.now }
    requires read { (text : List ℕ) × (old : TreeValue) × IsDocument text (view file.now) × JsonReads text (Ok old) }
    ensures { IfOk result (λ same. (text : List ℕ) → IsUtf8 text → IsDocument text (view file.now) → (IsTrue same ↔ JsonReads text (Ok tree.now))) }
{
    if differs(alloc, tree, file)? {
        return Ok(false);
    }
    match tree_of(alloc, file) {
        Ok(old) => Ok(old.same(tree)),
        // What is read has no other fault.
        Err(_) => Err(Memory),
    }
}

fn copied(alloc: Global, bytes: &[u8]) -> Result<Vec<u8>, Memory>
    ensures { IfOk result (λ copy. copy.items ≡ bytes.now) }
{
    Ok(Vec::from_slice(alloc, bytes)?)
}

// The text of a document that is written anew.
fn written_over(alloc: Global, tree: &Tree, text: &str, file: Value) -> Result<Vec<u8>, Memory>
    requires member { IsMemberTree marks_schema tree.now }
    requires within { marks_over tree.now ≡ None }
    requires file { IsFile text.now }
    requires document { IsDocument text.now (view file) }
    ensures { IfOk result (λ bytes. IsWrittenAnew tree.now text.now bytes.items) }
{
    let (bar, other) = folders_of(tree);
    let new = roots_anew(alloc, file, bar, other)?;
    write_document(alloc, &new)
}

// A document in the two folders of which what stands is written anew for trees.
fn roots_anew(alloc: Global, file: Value, bar: &Tree, other: &Tree) -> Result<Value, Memory>
    requires roots { HasBothRoots (view file) }
    requires bar { IsAt 1 bar.now }
    requires other { IsAt 1 other.now }
    ensures { IfOk result (λ new. (roots : HasBothRoots (view file)) → AreRootsWritten (view file) roots bar.now other.now (view new)) }
{
    let mut members = members_of(file);
    match replace(alloc, &mut members, "roots", Value::Null)? {
        Some(roots) => {
            let roots = both_anew(alloc, members_of(roots), bar, other)?;
            set(alloc, &mut members, "roots", Value::Object(roots))?;
            Ok(Value::Object(members))
        }
        None => unreachable!(),
    }
}

// The members of an object.
fn members_of(value: Value) -> Map<String, Value>
    requires { (members : Members) × (view value ≡ object members) }
    ensures { view value ≡ object (members_view result.entries) }
{
    match value {
        Value::Object(members) => members,
        _ => unreachable!(),
    }
}

// The same among the members of `roots`.
fn both_anew(
    alloc: Global,
    roots: Map<String, Value>,
    bar: &Tree,
    other: &Tree,
) -> Result<Map<String, Value>, Memory>
    requires bar_root { HasRootAt bar_key (members_view roots.entries) }
    requires other_root { HasRootAt other_key (members_view roots.entries) }
    requires bar { IsAt 1 bar.now }
    requires other { IsAt 1 other.now }
    ensures { IfOk result (λ new. AreBothWritten bar.now other.now (members_view roots.entries) (members_view new.entries)) }
{
    let mut roots = roots;
    root_anew(alloc, &mut roots, "bookmark_bar", bar)?;
    root_anew(alloc, &mut roots, "other", other)?;
    Ok(roots)
}

// The same for one of the two.
fn root_anew(
    alloc: Global,
    roots: &mut Map<String, Value>,
    key: &str,
    tree: &Tree,
) -> Result<(), Memory>
    requires root { HasRootAt key.now (members_view roots.old.entries) }
    requires tree { IsAt 1 tree.now }
    ensures { OnOk result (IsRootAnew key.now tree.now (members_view roots.old.entries) (members_view roots.new.entries)) }
{
    match replace(alloc, roots, key, Value::Null)? {
        Some(root) => {
            let new = folder_written(alloc, root, tree)?;
            set(alloc, roots, key, new)
        }
        None => unreachable!(),
    }
}
