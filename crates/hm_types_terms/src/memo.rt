//! What was found before.
//!
//! The views of lenses stand in slots, each at the first free one on a way that begins where its lens and its source say.
//! At the most half of the slots are taken, so that a way is short. That a view is found again isn't proved, only that
//! what is found was remembered.
ghost use Rattle.std.specs.Prelude.{◌≡◌, ◌<◌, ℕ, Some, IfOk, IfSome, length, slice_get};
ghost use Rattle.hm_types_terms.specs.Memos.{Knows, Remembers, AreKept, AreAmong};
ghost use Rattle.hm_schema.specs.declared.node.NodeId.{NodeId as NodeValue};

use hm_schema::NodeId;
use hm_tree::Memory;
use std::alloc::Global;

/// The view of the lens at a place at the node at a place.
#[derive(Clone, Copy)]
pub struct Known {
    pub lens: usize,
    pub at: usize,
    pub view: NodeId,
}

/// The views of lenses at nodes.
#[derive(Drop)]
pub struct Memo {
    pub slots: Vec<Option<Known>>,
    count: usize,
    alloc: Global,
}

impl Memo {
    /// Nothing is remembered.
    pub fn new(alloc: Global) -> Memo
        ensures { (n : ℕ) (i j : NodeValue) → ¬ (Knows result n i j) }
    {
        Memo {
            slots: Vec::new(alloc),
            count: 0,
            alloc,
        }
    }

    /// The view of a lens at a node, if it is remembered.
    pub fn recall(&self, lens: usize, at: NodeId) -> Option<NodeId>
        ensures { IfSome result (Knows self.now lens at) }
    {
        let count = self.slots.len();
        for step in 0..count {
            match read(&self.slots, slot_at(count, lens, at.place, step)) {
                Some(known) if known.lens == lens && known.at == at.place => {
                    return Some(known.view);
                }
                Some(_) => (),
                None => return None,
            }
        }
        None
    }

    /// Remembers a view.
    pub fn remember(&mut self, lens: usize, at: NodeId, view: NodeId) -> Result<(), Memory>
        ensures { Remembers self.old self.new lens at view }
    {
        if self.count >= self.slots.len() / 2 {
            self.slots = larger(self.alloc, &self.slots)?;
        }
        let known = Known {
            lens,
            at: at.place,
            view,
        };
        put(&mut self.slots, known);
        self.count = self.count.saturating_add(1);
        Ok(())
    }
}

// Twice as many slots with the same views.
fn larger(alloc: Global, slots: &[Option<Known>]) -> Result<Vec<Option<Known>>, Memory>
    ensures { IfOk result (λ v. AreAmong v.items slots.now) }
{
    let mut more = vec![in alloc; None; slots.len().saturating_mul(2).max(64)]?;
    for slot in slots {
        if let Some(known) = slot {
            put(&mut more, *known);
        }
    }
    Ok(more)
}

// What is in a slot, if there is such a slot and it isn't free.
fn read(slots: &[Option<Known>], slot: usize) -> Option<Known>
    ensures { IfSome result (λ known. slice_get slots.now slot ≡ Some (Some known)) }
{
    if slot < slots.len() {
        slots[slot]
    } else {
        None
    }
}

// Puts a view into the first free slot on its way.
fn put(slots: &mut Vec<Option<Known>>, known: Known)
    ensures { AreKept slots.old.items slots.new.items known }
{
    if let Some(slot) = free_slot(slots, known.lens, known.at) {
        slots[slot] = Some(known);
    }
}

fn free_slot(slots: &[Option<Known>], lens: usize, at: usize) -> Option<usize>
    ensures { IfSome result (λ slot. slot < length slots.now) }
{
    let count = slots.len();
    for step in 0..count {
        let slot = slot_at(count, lens, at, step);
        if slot < count && slots[slot].is_none() {
            return Some(slot);
        }
    }
    None
}

// The slot at a step of a way among so many slots, a power of two. The places of nodes that are next to one another begin next
// to one another, eight at a time, since such are often asked for together; the steps are of nine slots, so that the ways of
// these soon part.
fn slot_at(count: usize, lens: usize, at: usize, step: usize) -> usize {
    let mixed = (lens.wrapping_mul(0x9e37_79b9) ^ (at / 8)).wrapping_mul(0x9e37_79b9_7f4a_7c15);
    let begin = (mixed / 0x1_0000_0000).wrapping_mul(8).wrapping_add(at % 8);
    begin.wrapping_add(step.wrapping_mul(9)) & count.wrapping_sub(1)
}
