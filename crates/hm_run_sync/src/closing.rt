//! Closing both replicas with what their views become, and the archive.
ghost use Rattle.std.specs.Prelude.{◌≡◌, ◌≤◌, Some, IfOk};
ghost use Rattle.hm_tree.specs.Archives.{depth_here, recorded};
ghost use Rattle.hm_tree_text.specs.Text.{archive_text};
ghost use Rattle.hm_run_files.specs.declared.slot.Slot.TheVariants as slot;
ghost use Rattle.hm_run_files.specs.declared.stop.FileFault.TheVariants.{Unwritable};
ghost use Rattle.hm_run_files.specs.declared.stop.Refusal.TheVariants.{At};
ghost use Rattle.hm_run_files.specs.declared.stop.Stop.TheVariants.{Refused};
ghost use Rattle.hm_run_files.specs.Steps.{Computes};
ghost use Rattle.hm_replica.specs.Replicas.{replica_value};
ghost use Rattle.hm_run_sides.specs.Sides.{seen, side_value};
ghost use Rattle.hm_run_handed.specs.Handed.{handed_in};
ghost use Rattle.hm_run_sync.specs.Reads.{Replicas, sides_of, MayClose, MayCloseOver, AreBases};
ghost use Rattle.hm_run_sync.specs.Verdict.{Sums, new_texts, one_sided_texts, archive_fits, Closes, ClosesAs, outcome_of, count_of};

use crate::read::{BasePair, SidePair};
use hm_replica::{Replica, leave};
use hm_report::{Conflict, Outcome};
use hm_run_files::{FileFault, Refusal, Slot, Stop};
use hm_run_handed::HandedIn;
use hm_run_sides::{Side, close_base, close_replica};
use hm_tree::{Archive, DEEPEST, Memory, Tree};
use hm_tree_text::{write_archive, write_tree};
use std::alloc::Global;

/// What may be told of a synchronisation: the conflicts that remain, and how many edges each of the two new views has.
#[derive(Drop)]
pub struct Summary {
    pub conflicts: Vec<Conflict>,
    pub left: usize,
    pub right: usize,
}

/// What the three files are to hold, and what may be told of it.
#[derive(Drop)]
pub struct NewTexts {
    pub archive: Vec<u8>,
    pub left: Vec<u8>,
    pub right: Vec<u8>,
    pub summary: Summary,
}

// How many edges of an archive lie one below another, of which a bound is known.
fn depth_of(archive: &Archive, bound: usize) -> usize
    requires { depth_here archive.now ≤ bound }
    ensures { result ≡ depth_here archive.now }
{
    let mut deep = 0;
    for place in 0..archive.count() {
        deep = deep.max(depth_of(archive.edge(place).1, bound - 1) + 1);
    }
    deep
}

fn too_deep(depth: usize) -> Stop
    ensures { result ≡ Refused (At slot.Archive (Unwritable depth)) }
{
    Stop::Refused(Refusal::At(Slot::Archive, FileFault::Unwritable(depth)))
}

// Whether an archive may be written, of whose depth a bound is known.
fn check_depth(archive: &Archive, bound: usize) -> Result<(), Stop>
    requires { depth_here archive.now ≤ bound }
    ensures { Computes (λ found. found ≡ archive_fits archive.now) result }
{
    if bound <= DEEPEST {
        return Ok(());
    }
    let depth = depth_of(archive, bound);
    if depth > DEEPEST {
        return Err(too_deep(depth));
    }
    Ok(())
}

// The text of an archive, which isn't needed behind it, and is left where it is.
fn text_of(alloc: Global, archive: Archive) -> Result<Vec<u8>, Memory>
    ensures { IfOk result (λ text. text.items ≡ archive_text archive) }
{
    let text = write_archive(alloc, &archive);
    leave(archive.into_edges());
    text
}

/// The texts of an outcome, of the depth of whose archive a bound is known, over what is left of the replicas without their views.
pub fn close(
    alloc: Global,
    given: HandedIn<'_>,
    sides: &SidePair,
    bases: BasePair,
    outcome: Outcome,
    bound: usize,
) -> Result<NewTexts, Stop>
    requires left { MayCloseOver (handed_in given means meaning) (side_value sides.now.left) bases.left outcome.left }
    requires right { MayCloseOver (handed_in given means meaning) (side_value sides.now.right) bases.right outcome.right }
    requires bound { depth_here outcome.archive ≤ bound }
    ensures closes { (replicas : Replicas) → AreBases (handed_in given.entry means meaning) (sides_of sides.now) replicas bases → Computes (Closes (handed_in given.entry means meaning) (sides_of sides.now) replicas (outcome_of outcome)) (seen new_texts result) }
    ensures sums { IfOk result (λ made. Sums (outcome_of outcome) outcome.conflicts.items made.summary) }
{
    let summary = Summary {
        conflicts: outcome.conflicts,
        left: outcome.left.count(),
        right: outcome.right.count(),
    };
    let fits = check_depth(&outcome.archive, bound);
    let archive = text_of(alloc, outcome.archive)?;
    let left = close_base(alloc, Slot::A, given, &sides.left, bases.left, outcome.left)?;
    let right = close_base(
        alloc,
        Slot::B,
        given,
        &sides.right,
        bases.right,
        outcome.right,
    )?;
    fits?;
    Ok(NewTexts {
        archive,
        left,
        right,
        summary,
    })
}

// Whether an archive that holds a view may be written.
#[tactic(auto, using(crate::proofs::ArchiveDepths::view_fits))]
fn check_view(view: &Tree) -> Result<(), Stop>
    ensures { Computes (λ found. found ≡ archive_fits (Some (recorded view.now))) result }
{
    let depth = view.depth();
    if depth > DEEPEST {
        return Err(too_deep(depth));
    }
    Ok(())
}

/// What the archive and a replica are to hold where they become as the view of the other one, which keeps its bytes; and how
/// many edges that view has.
#[derive(Drop)]
pub struct OneSided {
    pub archive: Vec<u8>,
    pub made: Vec<u8>,
    pub kept: Vec<u8>,
    pub count: usize,
}

/// The texts where the replica of a slot and the archive become as the view of the other replica, whose bytes stay.
pub fn close_as(
    alloc: Global,
    slot: Slot,
    given: HandedIn<'_>,
    side: &Side,
    replica: Replica,
    other: Replica,
) -> Result<OneSided, Stop>
    requires { MayClose (handed_in given means meaning) (side_value side.now) (replica_value replica) other.view }
    ensures closes { Computes (ClosesAs (handed_in given.entry means meaning) slot (side_value side.now) (replica_value replica) (replica_value other)) (seen one_sided_texts result) }
    ensures counts { IfOk result (λ made. made.count ≡ count_of other.view) }
{
    let Replica {
        bytes,
        concrete,
        view,
    } = other;
    drop(concrete);
    let count = view.count();
    let fits = check_view(&view);
    let archive = write_tree(alloc, &view)?;
    let made = close_replica(alloc, slot, given, side, replica, view)?;
    fits?;
    Ok(OneSided {
        archive,
        made,
        kept: bytes,
        count,
    })
}
