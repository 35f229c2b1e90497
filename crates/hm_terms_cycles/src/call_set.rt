//! Sets of calls.
ghost use Rattle.std.specs.Prelude.{◌≡◌, ◌<◌, All, IfOk, OnOk, length, []};
ghost use Rattle.std.specs.List.{Contains};
ghost use Rattle.hm_terms_cycles.specs.declared.call.Call.{Call as CallValue};
ghost use Rattle.hm_terms_cycles.specs.CallSets.{IsSet, Adds, no_marks, marked, mark, BehindOne};

use crate::call::Call;
use hm_tree::Memory;
use std::alloc::Global;

/// Calls, each once, in the order in which they came; and for each definition which calls of it are among them.
#[derive(Drop)]
pub struct CallSet {
    pub calls: Vec<Call>,
    pub marks: Vec<Marks>,
}

/// Which calls of a definition are in a set: those inside neither, inside a sequence, inside a lens on children or items,
/// and inside both.
#[derive(Clone, Copy)]
pub struct Marks {
    pub neither: bool,
    pub sequence: bool,
    pub children: bool,
    pub both: bool,
}

impl Marks {
    fn none() -> Marks
        ensures { result ≡ no_marks }
    {
        Marks {
            neither: false,
            sequence: false,
            children: false,
            both: false,
        }
    }

    fn has(&self, call: Call) -> bool
        ensures { result ≡ marked self.now call }
    {
        match (call.sequence, call.children) {
            (false, false) => self.neither,
            (true, false) => self.sequence,
            (false, true) => self.children,
            (true, true) => self.both,
        }
    }

    fn add(&mut self, call: Call)
        ensures { self.new ≡ mark self.old call }
    {
        match (call.sequence, call.children) {
            (false, false) => self.neither = true,
            (true, false) => self.sequence = true,
            (false, true) => self.children = true,
            (true, true) => self.both = true,
        }
    }
}

impl CallSet {
    /// No calls, of so many definitions.
    pub fn new(alloc: Global, count: usize) -> Result<CallSet, Memory>
        ensures set { IfOk result IsSet }
        ensures none { IfOk result (λ s. s.calls.items ≡ []) }
        ensures count { IfOk result (λ s. length s.marks.items ≡ count) }
    {
        Ok(CallSet {
            calls: Vec::new(alloc),
            marks: vec![in alloc; Marks::none(); count]?,
        })
    }

    /// Adds a call, if it isn't there.
    pub fn add(&mut self, call: Call) -> Result<(), Memory>
        requires set { IsSet self.old }
        requires known { call.place < length self.old.marks.items }
        ensures set { OnOk result (IsSet self.new) }
        ensures adds { OnOk result (Adds (λ x. x ≡ call) self.old.calls.items self.new.calls.items) }
        ensures count { length self.new.marks.items ≡ length self.old.marks.items }
    {
        if !self.marks[call.place].has(call) {
            self.calls.push(call)?;
            self.marks[call.place].add(call);
        }
        Ok(())
    }

    /// Adds the ways by a way and one call more.
    pub fn add_behind(&mut self, way: Call, calls: &[Call]) -> Result<(), Memory>
        requires set { IsSet self.old }
        requires known { All (λ (x : CallValue). x.place < length self.old.marks.items) calls.now }
        ensures set { OnOk result (IsSet self.new) }
        ensures adds { OnOk result (Adds (BehindOne way calls.now) self.old.calls.items self.new.calls.items) }
        ensures count { length self.new.marks.items ≡ length self.old.marks.items }
    {
        for call in calls {
            self.add(way.and(*call))?;
        }
        Ok(())
    }
}
