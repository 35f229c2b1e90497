//! Calls of definitions.
ghost use Rattle.std.specs.Prelude.{◌≡◌};
ghost use Rattle.hm_terms_cycles.specs.Calls.{behind};

/// A call, or a way of calls: the place of the definition that it leads to, whether it, or some call on it, stands inside a
/// sequence, and whether inside a lens on children or items.
#[derive(Clone, Copy)]
pub struct Call {
    pub place: usize,
    pub sequence: bool,
    pub children: bool,
}

impl Call {
    /// The way on from here by one more call.
    pub fn and(self, next: Call) -> Call
        ensures { result ≡ behind self next }
    {
        Call {
            place: next.place,
            sequence: self.sequence | next.sequence,
            children: self.children | next.children,
        }
    }
}
