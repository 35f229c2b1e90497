//! Calls of a kind, numbered from 1 on, of which some are to fail.
ghost use Rattle.std.specs.Prelude.{◌≡◌, OnErr, OnOk};
ghost use Rattle.hm_outside.specs.Numbered.{naming, next_naming, numbered, no_calls, counted, failing};

use std::alloc::{AllocError, Global};

/// How many calls there were, and what was said of those that are to fail, by their numbers; what was said last stands first.
#[derive(Drop)]
pub struct Numbered {
    pub count: u64,
    pub named: Vec<(u64, bool)>,
}

impl Numbered {
    /// No call, of which none is to fail.
    pub fn new(alloc: Global) -> Numbered
        ensures { numbered result ≡ no_calls }
    {
        Numbered {
            count: 0,
            named: Vec::new(alloc),
        }
    }

    /// Lets the call of a number fail, and says whether it does what it was to do all the same.
    pub fn name(&mut self, number: u64, done: bool) -> Result<(), AllocError>
        ensures named { OnOk result (numbered self.new ≡ failing number done (numbered self.old)) }
        ensures same { OnErr result (numbered self.new ≡ numbered self.old) }
    {
        Ok(self.named.insert(0, (number, done))?)
    }

    /// What was said of the next call; none where it isn't to fail.
    pub fn next(&self) -> Option<bool>
        ensures { result ≡ next_naming (numbered self.now) }
    {
        self.naming(self.count.saturating_add(1))
    }

    // What was said last of the call of a number.
    fn naming(&self, number: u64) -> Option<bool>
        ensures { result ≡ naming number self.now.named.items }
    {
        for place in 0..self.named.len() {
            if self.named[place].0 == number {
                return Some(self.named[place].1);
            }
        }
        None
    }

    /// Counts a call. The number of them stands still at its greatest.
    pub fn count(&mut self)
        ensures { numbered self.new ≡ counted (numbered self.old) }
    {
        self.count = self.count.saturating_add(1);
    }
}
