//! What stands in a folder, sought in the tree of what is to stand there.
ghost use Rattle.std.specs.Prelude.{◌≡◌, ◌≢◌, ◌<◌, ◌≤◌, length, false, ℕ, List, IfOk, IfSome, IsTrue, MatchOption, IsUtf8};
ghost use Rattle.hm_marks.specs.Among.{HasLeft};
ghost use Rattle.hm_marks.specs.Contents.{nothing, link, folder};
ghost use Rattle.hm_marks_schema.specs.Members.{IsAt};
ghost use Rattle.hm_marks_tokens.specs.Symbols.{Symbol, HasSymbols};
ghost use Rattle.hm_marks_tokens.specs.Grammar.{Entry, Contents};
ghost use Rattle.hm_netscape_entries.specs.Entries.{html};
ghost use Rattle.hm_netscape_entries.specs.Next.{an_end, next_seen, IsLeft, IsInFolder, Begins, IsUtf8Next};
ghost use Rattle.hm_netscape_writing.specs.Added.{AreIn, first_of};
ghost use Rattle.hm_netscape_marks.specs.Seeking.{IsLacking, IsPassed};

use hm_marks_schema::{FolderAt, folder_at, lacks_link};
use hm_netscape_entries::{Next, address_in, next_entry, text_of};
use hm_netscape_files::nesting_in;
use hm_tree::{Memory, Tree};
use std::alloc::Global;

// What stands behind the end of a folder, in which at least so many links and folders have to be left. Nothing where there are
// fewer, or where the tree certainly lacks one of them. It calls itself for each folder in it, so folders aren't to lie too deep.
#[cycle(seeking)]
pub(crate) fn behind_folder<'a>(
    alloc: Global,
    bytes: &'a [u8],
    tree: &Tree,
    missing: usize,
) -> Result<Option<&'a [u8]>, Memory>
    requires folder { IsInFolder bytes.now }
    requires utf8 { IsUtf8 bytes.now }
    requires tree { IsAt 1 tree.now }
    ensures found { IfOk result (λ found. (c : Contents) (more : List Symbol) (rest : List ℕ) → IsLeft bytes.now c more rest → MatchOption found (HasLeft html tree.now missing c → ⊥) (λ behind. HasSymbols false behind.now more rest)) }
    ensures utf8 { IfOk result (λ found. IfSome found (λ behind. IsUtf8 behind.now)) }
    ensures shorter { IfOk result (λ found. IfSome found (λ behind. length behind.now < length bytes.now)) }
{
    let mut rest = bytes;
    let mut left = missing;
    loop {
        let (next, behind) = next_entry(rest);
        match next {
            Next::End if left == 0 => return Ok(Some(behind)),
            Next::End => return Ok(None),
            _ => match behind_entry(alloc, next, behind, tree, left)? {
                Some(passed) => (rest, left) = passed,
                None => return Ok(None),
            },
        }
    }
}

// What stands behind an entry, and how many links and folders have to be left there. Nothing where the tree certainly lacks it.
#[cycle(seeking)]
pub(crate) fn behind_entry<'a>(
    alloc: Global,
    next: Next<'a>,
    behind: &'a [u8],
    tree: &Tree,
    missing: usize,
) -> Result<Option<(&'a [u8], usize)>, Memory>
    requires next { AreIn (next_seen next) behind.now }
    requires some { next_seen next ≢ an_end }
    requires utf8 { IsUtf8Next (next_seen next) × IsUtf8 behind.now }
    requires tree { IsAt 1 tree.now }
    ensures found { IfOk result (λ found. (c : Contents) (more : List Symbol) (rest : List ℕ) → Begins behind.now more rest c (next_seen next.entry) → MatchOption found (IsLacking tree.now (first_of c)) (λ passed. IsPassed tree.now missing c passed.1 passed.0.now more rest)) }
    ensures utf8 { IfOk result (λ found. IfSome found (λ passed. IsUtf8 passed.0.now)) }
    ensures shorter { IfOk result (λ found. IfSome found (λ passed. length passed.0.now ≤ length behind.now)) }
{
    match next {
        Next::End => unreachable!(),
        Next::Separator(_) => Ok(Some((behind, missing))),
        Next::Link(attributes, title, _) => {
            if lacks(alloc, tree, attributes, title)? {
                return Ok(None);
            }
            Ok(Some((behind, missing.saturating_sub(1))))
        }
        Next::Folder(_, title, _) => match behind_inner(alloc, title, behind, tree)? {
            Some(rest) => Ok(Some((rest, missing.saturating_sub(1)))),
            None => Ok(None),
        },
    }
}

// What stands behind the end of a folder in another one, by its title and what stands in it. Nothing where the other one's tree
// certainly lacks it.
#[cycle(seeking)]
fn behind_inner<'a>(
    alloc: Global,
    title: &[u8],
    inside: &'a [u8],
    tree: &Tree,
) -> Result<Option<&'a [u8]>, Memory>
    requires title { IsUtf8 title.now }
    requires folder { IsInFolder inside.now }
    requires utf8 { IsUtf8 inside.now }
    requires tree { IsAt 1 tree.now }
    ensures found { IfOk result (λ found. (e : Entry) (c : Contents) (more : List Symbol) (rest : List ℕ) → e.title ≡ title.now → IsLeft inside.now c more rest → MatchOption found (IsLacking tree.now (folder e c nothing)) (λ behind. HasSymbols false behind.now more rest)) }
    ensures utf8 { IfOk result (λ found. IfSome found (λ behind. IsUtf8 behind.now)) }
    ensures shorter { IfOk result (λ found. IfSome found (λ behind. length behind.now < length inside.now)) }
{
    let key = text_of(alloc, title)?;
    match folder_at(tree, &key) {
        FolderAt::Nowhere => Ok(None),
        FolderAt::Only(below) => behind_folder(alloc, inside, below, below.count()),
        FolderAt::Unknown => Ok(Some(nesting_in(inside).1)),
    }
}

// Whether a tree certainly lacks a link, by its attributes and its title.
fn lacks(alloc: Global, tree: &Tree, attributes: &[u8], title: &[u8]) -> Result<bool, Memory>
    requires tree { IsAt 1 tree.now }
    requires attributes { IsUtf8 attributes.now }
    requires title { IsUtf8 title.now }
    ensures { IfOk result (λ found. IsTrue found → (e : Entry) → e.attributes ≡ attributes.now → e.title ≡ title.now → IsLacking tree.now (link e nothing)) }
{
    let key = text_of(alloc, title)?;
    let address = address_in(alloc, attributes)?;
    Ok(lacks_link(tree, &key, &address))
}
