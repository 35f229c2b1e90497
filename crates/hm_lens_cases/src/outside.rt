//! The store and the sink in memory, and a writer that is full.

use hm_outside::{Loaded, MemSink, MemStore, Put, Sink, StdSink, Store, Stored};
use hm_tree::Name;
use std::alloc::Global;
use std::io::Write;
use std::test::Fail;
use std::{cmp, io};

// What a load answers, in a word, and the bytes.
fn load(
    store: &mut MemStore,
    name: &str,
    limit: usize,
    alloc: Global,
) -> Result<(&'static str, Vec<u8>), Fail> {
    let none = Vec::new(alloc);
    Ok(match store.load(&Name::from_text(alloc, name)?, limit) {
        Loaded::Bytes(bytes) => ("bytes", bytes),
        Loaded::Large => ("large", none),
        Loaded::Absent => ("absent", none),
        Loaded::Failed => ("failed", none),
        Loaded::Memory => ("memory", none),
    })
}

#[test]
fn a_store_gives_what_it_was_given(rt: HostRuntime) -> Result<(), Fail> {
    let alloc = rt.alloc();
    let mut store = MemStore::empty(alloc);
    for (name, bytes) in [("left", b"abc"), ("right", b"xyz"), ("left", b"new")] {
        let answer = store.replace(&Name::from_text(alloc, name)?, bytes.as_slice());
        assert_eq!(rt; answer, Stored::Done);
    }
    let cases = [
        ("left", 3, "bytes", "new"),
        ("right", 4, "bytes", "xyz"),
        ("right", 2, "large", ""),
        ("archive", 9, "absent", ""),
    ];
    for (name, limit, word, bytes) in cases {
        let (answer, found) = load(&mut store, name, limit, alloc)?;
        assert_eq!(rt; answer, word, "at {name}");
        assert_eq!(rt; found.as_slice(), bytes.as_bytes(), "at {name}");
    }
    Ok(())
}

#[test]
fn room_is_no_file_and_takes_the_bytes(rt: HostRuntime) -> Result<(), Fail> {
    let alloc = rt.alloc();
    let mut store = MemStore::empty(alloc);
    let name = Name::from_text(alloc, "a")?;
    store.reserve(&name, 100)?;
    assert_eq!(rt; load(&mut store, "a", 100, alloc)?.0, "absent");
    assert_eq!(rt; store.replace(&name, [b'x'; 100].as_slice()), Stored::Done);
    assert_eq!(rt; load(&mut store, "a", 100, alloc)?.1.len(), 100);
    Ok(())
}

#[test]
fn a_sink_holds_its_pieces_in_order(rt: HostRuntime) {
    let mut sink = MemSink::empty(rt.alloc());
    for piece in ["one ", "", "two"] {
        assert_eq!(rt; sink.put(piece.as_bytes()), Put::Done);
    }
    assert_eq!(rt; sink.bytes(), b"one two".as_slice());
}

// A writer with room for so many bytes.
#[derive(Drop)]
struct Narrow {
    room: usize,
}

impl Write for Narrow {
    fn write(&mut self, buf: &[u8]) -> io::Result<usize> {
        let count = cmp::min(self.room, buf.len());
        self.room -= count;
        Ok(count)
    }

    fn flush(&mut self) -> io::Result<()> {
        Ok(())
    }
}

#[test]
fn a_full_writer_is_a_fault(rt: HostRuntime) {
    let mut sink = StdSink::new(rt.alloc(), Narrow { room: 8 });
    assert_eq!(rt; sink.put(b"12345"), Put::Done);
    assert_eq!(rt; sink.put(b"67890"), Put::Failed);
    assert_eq!(rt; sink.put(b""), Put::Done);
}
