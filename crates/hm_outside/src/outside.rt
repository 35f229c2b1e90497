//! What a store and a sink answer, and what is known of them then.
ghost use Rattle.std.specs.Prelude.{◌≡◌, ◌≢◌, ◌<◌, ◌≤◌, List, ℕ, Option, IfSome};
ghost use Rattle.hm_outside.specs.declared.outside.Kind.TheVariants.{Load, Replace};
ghost use Rattle.hm_outside.specs.declared.outside.Failure.{Failure as FailureOf};
ghost use Rattle.hm_outside.specs.Contents.{Contents, held};
ghost use Rattle.hm_outside.specs.Failures.{Extends, HasRisen};
ghost use Rattle.hm_outside.specs.Answers.{IsWithin, LoadsFrom, ReplacesIn, PutsAfter};

use hm_tree::Name;

/// A kind of call of a store.
#[derive(Clone, Copy, PartialEq, Eq, Debug)]
pub enum Kind {
    /// A call of `load`.
    Load,
    /// A call of `replace`.
    Replace,
}

/// A call of a store that failed.
#[derive(Drop)]
pub struct Failure {
    /// Which call it was.
    pub kind: Kind,
    /// The name that it was about.
    pub name: Name,
}

/// What `load` answers.
#[derive(Drop)]
pub enum Loaded {
    /// The bytes of the name, no more of them than the limit.
    Bytes(Vec<u8>),
    /// The name has more bytes than the limit.
    Large,
    /// There is nothing of this name.
    Absent,
    /// The store could not read it.
    Failed,
    /// Memory ran out.
    Memory,
}

/// What `replace` answers.
#[derive(Clone, Copy, PartialEq, Eq, Debug)]
pub enum Stored {
    /// The name has the new bytes.
    Done,
    /// The store could not write them: the name has the bytes from before or the new ones.
    Failed,
    /// Memory ran out, and nothing has changed.
    Memory,
}

/// What `put` answers.
#[derive(Clone, Copy, PartialEq, Eq, Debug)]
pub enum Put {
    /// The whole piece is written.
    Done,
    /// The sink could not take it all: a first part of it is written.
    Failed,
    /// Memory ran out, and nothing is written.
    Memory,
}

/// Where bytes are kept under names.
pub trait Store {
    /// The bytes of each name that has any, where the store tells them.
    ghost contents: { Self → Option Contents };

    /// Each call that failed, the first of them first.
    ghost failed: { Self → List FailureOf };

    /// The bytes of a name, if they are no more than `limit`.
    fn load(&mut self, name: &Name, limit: usize) -> Loaded
        ensures contents { contents self.new ≡ contents self.old }
        ensures failed { Extends (failed self.old) (failed self.new) }
        ensures cause { result ≡ Loaded.Failed → HasRisen Load name.now (failed self.old) (failed self.new) }
        ensures calm { result ≢ Loaded.Failed → failed self.new ≡ failed self.old }
        ensures within { IsWithin limit result }
        ensures told { IfSome (contents self.old) (λ old. LoadsFrom (held old name.now) limit result) };

    /// Puts bytes under a name, in place of any that it has.
    fn replace(&mut self, name: &Name, bytes: &[u8]) -> Stored
        ensures failed { Extends (failed self.old) (failed self.new) }
        ensures cause { result ≡ Stored.Failed → HasRisen Replace name.now (failed self.old) (failed self.new) }
        ensures calm { result ≢ Stored.Failed → failed self.new ≡ failed self.old }
        ensures told { IfSome (contents self.old) (λ old. ReplacesIn old name.now bytes.now result (contents self.new)) };
}

/// Where output is written, piece by piece.
pub trait Sink {
    /// The bytes that were written, where the sink tells them.
    ghost written: { Self → Option (List ℕ) };

    /// How many calls failed.
    ghost faults: { Self → ℕ };

    /// Writes a piece behind what was written before.
    fn put(&mut self, piece: &[u8]) -> Put
        ensures faults { faults self.old ≤ faults self.new }
        ensures cause { result ≡ Put.Failed → faults self.old < faults self.new }
        ensures calm { result ≢ Put.Failed → faults self.new ≡ faults self.old }
        ensures told { IfSome (written self.old) (λ old. PutsAfter old piece.now result (written self.new)) };
}
