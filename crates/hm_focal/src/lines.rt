//! The lines of a lens file, each in its place.
ghost use Rattle.std.specs.Prelude.{◌≡◌, IfOk};
ghost use Rattle.hm_schema_lines.specs.Entries.{entry_value, entry_values, texts_of};
ghost use Rattle.hm_schema_lines.specs.BadLines.{is_counted};
ghost use Rattle.hm_focal.specs.OwnLines.{own_value, own_values};
ghost use Rattle.hm_focal.specs.Lines.{AreLines};
ghost use Rattle.hm_focal.specs.Stages.{takes_nodes, takes_lenses, takes_own, placed_entry, placed_own, next_stage};

use crate::own::{Own, read_own};
use bstr::ByteSlice;
use hm_schema_lines::{Entry, is_counted, read_entry};
use hm_tree::Memory;
use std::alloc::Global;

/// Each line as one of a node, and as one of the file's own.
#[derive(Drop)]
pub struct Lines {
    pub entries: Vec<Entry>,
    pub own: Vec<Own>,
}

// Which lines may stand next.
#[derive(Clone, Copy, Drop)]
enum Stage {
    Header,
    Format,
    /// Lines of nodes, lens lines or the main line.
    Nodes,
    /// Lens lines or the main line.
    Lenses,
    End,
}

impl Stage {
    fn takes_nodes(self) -> bool
        ensures { result ≡ takes_nodes self }
    {
        matches!(self, Stage::Nodes)
    }

    fn takes_lenses(self) -> bool
        ensures { result ≡ takes_lenses self }
    {
        matches!(self, Stage::Nodes | Stage::Lenses)
    }

    // Whether a line of the file's own may stand next.
    fn takes(self, own: &Own) -> bool
        ensures { result ≡ takes_own self (own_value own.now) }
    {
        match own {
            Own::Nothing => true,
            Own::Header => matches!(self, Stage::Header),
            Own::Format(_) => matches!(self, Stage::Format),
            Own::Lens(_) => self.takes_lenses(),
            Own::Main(_) => self.takes_lenses(),
        }
    }

    // A line as one of a node.
    fn place_entry(self, entry: Entry) -> Entry
        ensures { entry_value result ≡ placed_entry self (entry_value entry) }
    {
        if matches!(entry, Entry::Says(_)) && !self.takes_nodes() {
            return Entry::Unknown;
        }
        entry
    }

    // A line as one of the file's own.
    fn place_own(self, own: Own) -> Own
        ensures { own_value result ≡ placed_own self (own_value own) }
    {
        if self.takes(&own) { own } else { Own::Nothing }
    }

    // Which lines may stand behind one that is in its place.
    fn behind(self, entry: &Entry, own: &Own) -> Stage
        ensures { result ≡ next_stage self (is_counted (entry_value entry.now)) (own_value own.now) }
    {
        match self {
            Stage::Header => if is_counted(entry) {
                Stage::Format
            } else {
                self
            },
            Stage::Format => if is_counted(entry) {
                Stage::Nodes
            } else {
                self
            },
            Stage::Nodes | Stage::Lenses => match own {
                Own::Lens(_) => Stage::Lenses,
                Own::Main(_) => Stage::End,
                _ => self,
            },
            Stage::End => self,
        }
    }
}

/// The lines of a file, in order.
pub fn read_lines(alloc: Global, bytes: &[u8]) -> Result<Lines, Memory>
    ensures { IfOk result (λ lines. AreLines (texts_of bytes.now) (entry_values lines.entries.items) (own_values lines.own.items)) }
{
    // The lines are counted first: a vector that grows holds up to three times the room for a while.
    let count = bytes.lines().count();
    let mut entries = Vec::with_capacity(alloc, count)?;
    let mut own = Vec::with_capacity(alloc, count)?;
    let mut stage = Stage::Header;
    for line in bytes.lines() {
        let entry = stage.place_entry(read_entry(alloc, line)?);
        let said = stage.place_own(read_own(alloc, line)?);
        stage = stage.behind(&entry, &said);
        entries.push(entry)?;
        own.push(said)?;
    }
    Ok(Lines { entries, own })
}
