//! The standard output, or any other writer. No contract tells what it took.
ghost use Rattle.std.specs.Prelude.{◌≡◌, None, length, OnOk};
ghost use Rattle.std.specs.Io.KnownBytes.{Appends};

use crate::outside::{Put, Sink};
use std::alloc::Global;
use std::io;
use std::io::{ErrorKind, Write};

/// A writer, with the kind of the error at each fault.
///
/// A piece is written whole and flushed. An interrupted write is tried again, and one that takes nothing is a
/// fault.
#[derive(Drop)]
pub struct StdSink<W: Write + Drop> {
    out: W,
    faults: Vec<ErrorKind>,
}

impl<W: Write + Drop> StdSink<W> {
    ghost use Rattle.hm_outside.specs.Shown.{fault_count};
    ghost use Rattle.std.specs.Prelude.{◌≡◌};

    /// This writer, with no fault.
    pub fn new(alloc: Global, out: W) -> StdSink<W>
        ensures { fault_count result ≡ 0 }
    {
        StdSink {
            out,
            faults: Vec::new(alloc),
        }
    }
}

// Writes it all, and flushes.
fn write_whole<W: Write>(out: &mut W, piece: &[u8]) -> io::Result<()>
    ensures { OnOk result (Appends (W.contents out.old) (W.contents out.new) piece.now) }
{
    out.write_all(piece)?;
    out.flush()
}

impl<W: Write + Drop> Sink for StdSink<W> {
    ghost written = { λ _. None };

    ghost faults = { λ s. length s.faults.items };

    fn put(&mut self, piece: &[u8]) -> Put {
        if self.faults.reserve(1).is_err() {
            return Put::Memory;
        }
        match write_whole(&mut self.out, piece) {
            Ok(()) => Put::Done,
            Err(error) => {
                self.faults.push(error.kind()).unwrap();
                Put::Failed
            }
        }
    }
}
