//! A run whose format finds no memory while it writes.

use hm_csv::Csv;
use hm_format::{Format, FormatFault};
use hm_outside::{MemSink, MemStore};
use hm_run::run;
use hm_schema::{Options, Schema};
use hm_text_lens::TextLens;
use hm_tree::{Name, Tree};
use hm_vcard::VCard;
use std::alloc::Global;
use std::test::Fail;

// A format that is another one, but never finds memory for what it would write.
#[derive(Drop)]
struct Forgetful<F: Format> {
    format: F,
}

impl<F: Format> Format for Forgetful<F> {
    ghost means = { λ f. F.means f.format };

    fn tag(&self) -> u8 {
        self.format.tag()
    }

    fn schema(&self, alloc: Global, options: &Options) -> Result<Schema, FormatFault> {
        self.format.schema(alloc, options)
    }

    fn read(&self, alloc: Global, options: &Options, bytes: &[u8]) -> Result<Tree, FormatFault> {
        self.format.read(alloc, options, bytes)
    }

    fn write(&self, _: Global, _: &Options, _: &Tree, _: &[u8]) -> Result<Vec<u8>, FormatFault> {
        Err(FormatFault::Memory)
    }
}

// A `gen` that counted by a formula would not write, and so would not need the memory.
#[test]
fn made_up_files_are_written_in_memory(rt: HostRuntime) -> Result<(), Fail> {
    let alloc = rt.alloc();
    let formats: [Box<dyn Format>; 2] = [
        Box::new(alloc, Forgetful { format: Csv::new() })?,
        Box::new(alloc, VCard::new())?,
    ];
    let texts: Vec<Box<dyn TextLens>> = Vec::new(alloc);
    let words = [
        Name::from_text(alloc, "gen")?,
        Name::from_text(alloc, "20")?,
    ];
    let mut store = MemStore::empty(alloc);
    let mut out = MemSink::empty(alloc);
    let status = run(alloc, &words, &mut store, &mut out, &formats, &texts);
    assert_eq!(rt; status, 5);
    assert!(rt; out.bytes().is_empty());
    Ok(())
}
