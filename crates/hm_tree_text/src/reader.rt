//! Reading: a place in the borrowed bytes, and a function for each form of the grammar.
ghost use Rattle.std.specs.Prelude.{◌≡◌, ◌↔◌, ℕ, ◌+◌, ◌<◌, ◌≤◌, true, false, List, [], ◌∷◌, ◌++◌, T, IsTrue, IfOk, IfErr, OnOk, IsUtf8, length, drop, Option, Some, MatchOption, option_copied};
ghost use Rattle.hm_tree.specs.Nodes.{marked};
ghost use Rattle.hm_tree_spelling.specs.Spelling.{spelled};
ghost use Rattle.hm_tree_text.specs.Reads.{ReadsTree, ReadsArchive, UnlessMemory};
ghost use Rattle.hm_tree_text.specs.Faults.{Faults};
ghost use Rattle.hm_tree_text.specs.FirstTree.{IsFirstTree};
ghost use Rattle.hm_tree_text.specs.Opening.{Opens};
ghost use Rattle.hm_tree_text.specs.Reading.{StandsAt, IsAfter, IsName, IsEdge, IsBelow, IsInside, IsWhole, IsFile, IsInsideRead, IsBelowRead, IsWholeRead, IsEdgeRead, IsFileRead, BeginsWith};
ghost use Rattle.hm_tree_text.specs.Pending.{valued_edges, MakeNode};
ghost use Rattle.hm_tree_text.specs.Failing.{OpensInside, OpensBelow, OpensEdge, Fails, FailsAlone};

use crate::built::Built;
use crate::fault::TextFault;
use crate::name_fault::name_fault;
use crate::pending::{add_edge, last_name, take_edges};
use crate::place::is_at;
use hm_tree::{Archive, DEEPEST, Memory, Name, Tree};
use hm_tree_spelling::unspell_name;
use std::alloc::Global;

// An edge as it was read, whether more come behind it, and the place behind its comma or brace.
#[derive(Drop)]
struct Edge<B> {
    name: Name,
    child: B,
    more: bool,
    end: usize,
}

/// The tree that the bytes are the file of. `TooDeep` where a beginning of a file that they begin with leaves more
/// than 1,000 braces open; else, where they are no file, `BadTree` with the length of their longest part with which a
/// file begins.
pub fn read_tree(alloc: Global, bytes: &[u8]) -> Result<Tree, TextFault>
    ensures { UnlessMemory (ReadsTree bytes.now) result }
{
    read_file(alloc, bytes)
}

/// The archive that the bytes are the file of: no bytes at all where it is missing at the root. It fails as
/// `read_tree` does.
pub fn read_archive(alloc: Global, bytes: &[u8]) -> Result<Archive, TextFault>
    ensures { UnlessMemory (ReadsArchive bytes.now) result }
{
    if bytes.is_empty() {
        return Ok(Archive::missing(alloc));
    }
    read_file(alloc, bytes)
}

/// The tree whose text stands at the front of the bytes, without a line feed, and the length of that text; none where
/// no text of a tree with at most 1,000 edges one below another stands there.
pub fn first_tree(alloc: Global, bytes: &[u8]) -> Result<Option<(Tree, usize)>, Memory>
    ensures { IfOk result (IsFirstTree bytes.now) }
{
    match read_whole(alloc, bytes) {
        Ok((tree, end)) => Ok(Some((tree, end))),
        Err(TextFault::BadTree { .. }) => Ok(None),
        Err(TextFault::TooDeep) => Ok(None),
        Err(TextFault::Memory) => Err(Memory),
    }
}

// A whole tree and the line feed behind it, which are all bytes.
fn read_file<B: Built>(alloc: Global, bytes: &[u8]) -> Result<B, TextFault>
    ensures text { IfOk result (λ read. IsFileRead B.marks (B.value read) bytes.now) }
    ensures fault { IfErr result (Faults B.marks (IsFile B.marks) bytes.now) }
{
    let (value, end) = read_whole(alloc, bytes)?;
    if !is_at(bytes, end, b'\n') {
        return Err(TextFault::BadTree { at: end });
    }
    if end + 1 < bytes.len() {
        return Err(TextFault::BadTree { at: end + 1 });
    }
    Ok(value)
}

// The tree or mark at the front, and the place behind it.
fn read_whole<B: Built>(alloc: Global, bytes: &[u8]) -> Result<(B, usize), TextFault>
    ensures text { IfOk result (λ read. IsWholeRead B.marks 1000 bytes.now (B.value read.0) read.1) }
    ensures fault { IfErr result (Fails (IsWhole B.marks) (Opens B.marks 1001) bytes.now 0) }
{
    if let Some(mark) = read_mark(alloc, bytes, 0) {
        return Ok((mark, 1));
    }
    if !is_at(bytes, 0, b'{') {
        return Err(TextFault::BadTree { at: 0 });
    }
    if is_at(bytes, 1, b'}') {
        return Ok((B::empty(alloc), 2));
    }
    let mut pending = Vec::new(alloc);
    read_inside(alloc, bytes, 1, DEEPEST - 1, &mut pending)
}

// The edges of a node behind its brace, to the other brace and the place behind it; room is how many further braces
// may be open below. The pending edges of the nodes around it are kept.
#[cycle(reading)]
fn read_inside<B: Built>(
    alloc: Global,
    bytes: &[u8],
    at: usize,
    room: usize,
    pending: &mut Vec<(Name, B)>,
) -> Result<(B, usize), TextFault>
    requires { at ≤ length bytes.now }
    ensures text { IfOk result (λ read. IsInsideRead B.marks (room + 1) bytes.now at (B.value read.0) read.1) }
    ensures fault { IfErr result (Fails (IsInside B.marks) (OpensInside B.marks room) bytes.now at) }
    ensures kept { OnOk result (pending.new.items ≡ pending.old.items) }
{
    let start = pending.len();
    let mut end = at;
    loop {
        let edge = read_edge(alloc, bytes, end, room, pending, start)?;
        add_edge(pending, edge.name, edge.child)?;
        end = edge.end;
        if !edge.more {
            let edges = take_edges(pending, start)?;
            return Ok((B::of_edges(edges)?, end));
        }
    }
}

// The edge at a place, whose name comes behind those of its node, with the comma or the brace behind it. The edges of
// its node are those from `start` on.
#[cycle(reading)]
fn read_edge<B: Built>(
    alloc: Global,
    bytes: &[u8],
    at: usize,
    room: usize,
    pending: &mut Vec<(Name, B)>,
    start: usize,
) -> Result<Edge<B>, TextFault>
    requires place { at ≤ length bytes.now }
    requires from { start ≤ length pending.old.items }
    requires before { MakeNode B.value (drop start pending.old.items) }
    ensures text { IfOk result (λ edge. IsEdgeRead B.marks room (valued_edges B.value (drop start pending.old.items)) bytes.now at edge.name (B.value edge.child) edge.more edge.end) }
    ensures fault { IfErr result (Fails (IsEdge B.marks (valued_edges B.value (drop start pending.old.items))) (OpensEdge B.marks room (valued_edges B.value (drop start pending.old.items))) bytes.now at) }
    ensures kept { OnOk result (pending.new.items ≡ pending.old.items) }
{
    let (name, behind) = read_name(alloc, bytes, at, last_name(pending, start))?;
    let (child, last) = read_below(alloc, bytes, behind, room, pending)?;
    if is_at(bytes, last, b',') {
        Ok(Edge {
            name,
            child,
            more: true,
            end: last + 1,
        })
    } else if is_at(bytes, last, b'}') {
        Ok(Edge {
            name,
            child,
            more: false,
            end: last + 1,
        })
    } else {
        Err(TextFault::BadTree { at: last })
    }
}

// What stands behind a name: nothing, or a colon and a mark or a node with edges.
#[cycle(reading)]
fn read_below<B: Built>(
    alloc: Global,
    bytes: &[u8],
    at: usize,
    room: usize,
    pending: &mut Vec<(Name, B)>,
) -> Result<(B, usize), TextFault>
    requires { at ≤ length bytes.now }
    ensures text { IfOk result (λ read. IsBelowRead B.marks room bytes.now at (B.value read.0) read.1) }
    ensures fault { IfErr result (Fails (IsBelow B.marks) (OpensBelow B.marks room) bytes.now at) }
    ensures kept { OnOk result (pending.new.items ≡ pending.old.items) }
{
    if !is_at(bytes, at, b':') {
        return Ok((B::empty(alloc), at));
    }
    if let Some(mark) = read_mark(alloc, bytes, at + 1) {
        return Ok((mark, at + 2));
    }
    if !is_at(bytes, at + 1, b'{') {
        return Err(TextFault::BadTree { at: at + 1 });
    }
    if room == 0 {
        return Err(TextFault::TooDeep);
    }
    read_inside(alloc, bytes, at + 2, room - 1, pending)
}

// The mark at a place, if there is one where marks may stand.
fn read_mark<B: Built>(alloc: Global, bytes: &[u8], at: usize) -> Option<B>
    ensures { MatchOption result (B.marks ≡ true → (rest : List ℕ) → ¬ (drop at bytes.now ≡ 33 ∷ rest)) (λ mark. (B.marks ≡ true) × (B.value mark ≡ Some marked) × StandsAt bytes.now at (33 ∷ []) (at + 1)) }
{
    if is_at(bytes, at, b'!') {
        B::mark(alloc)
    } else {
        None
    }
}

// The name at a place, which comes behind the last one, and the place behind its second quote.
fn read_name(
    alloc: Global,
    bytes: &[u8],
    at: usize,
    last: Option<&Name>,
) -> Result<(Name, usize), TextFault>
    requires { at ≤ length bytes.now }
    ensures stands { IfOk result (λ read. StandsAt bytes.now at (spelled read.0) read.1) }
    ensures text { IfOk result (λ read. IsUtf8 read.0) }
    ensures after { IfOk result (λ read. IsAfter (option_copied last.entry) read.0) }
    ensures fault { IfErr result (FailsAlone (IsName (option_copied last.entry)) bytes.now at) }
{
    let rest = &bytes[at..];
    match name_after(alloc, rest, last)? {
        Some((name, length)) => Ok((name, at + length)),
        None => Err(TextFault::BadTree {
            at: at + name_fault(rest, last),
        }),
    }
}

// The name at the front, if it comes behind the last one, and the length of its spelling.
fn name_after(
    alloc: Global,
    bytes: &[u8],
    last: Option<&Name>,
) -> Result<Option<(Name, usize)>, Memory>
    ensures { IfOk result (λ found. MatchOption found (¬ (BeginsWith (IsName (option_copied last.entry)) bytes.now)) (λ read. IsUtf8 read.0 × IsAfter (option_copied last.entry) read.0 × StandsAt bytes.now 0 (spelled read.0) read.1)) }
{
    let Some((name, length)) = unspell_name(alloc, bytes)? else {
        return Ok(None);
    };
    if is_after(last, name.text()) {
        Ok(Some((name, length)))
    } else {
        Ok(None)
    }
}

// Whether a name comes behind the last one.
#[tactic(auto, unfolding(hm_tree::specs::Names::name_cmp))]
fn is_after(last: Option<&Name>, name: &str) -> bool
    ensures { IsTrue result ↔ IsAfter (option_copied last.entry) name.now }
{
    match last {
        Some(last) => last.text().cmp(&name).is_lt(),
        None => true,
    }
}
