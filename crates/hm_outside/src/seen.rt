//! What was seen of the files that were loaded.
ghost use Rattle.std.specs.Prelude.{◌↔◌, ◌<◌, IsTrue, Any, IfOk, OnOk, ◌≡◌, vec_len, vec_capacity};
ghost use Rattle.hm_outside.specs.Seen.{AreOfOne, WasLoaded, WasAnother, WasOther, IsSeen};

use hm_tree::{Memory, Name};
use std::fs::Metadata;
use std::os::unix::fs::MetadataExt;

/// What tells a file from others, and one state of it from another.
#[derive(Clone, Copy)]
pub struct Stamp {
    device: u64,
    inode: u64,
    size: u64,
    /// When it was last changed: the seconds, and the nanoseconds behind them.
    seconds: i64,
    nanoseconds: i64,
}

impl Stamp {
    pub fn of(metadata: &Metadata) -> Stamp {
        Stamp {
            device: metadata.dev(),
            inode: metadata.ino(),
            size: metadata.size(),
            seconds: metadata.ctime(),
            nanoseconds: metadata.ctime_nsec(),
        }
    }

    fn is_same(&self, other: &Stamp) -> bool
        ensures { IsTrue result ↔ (self.now ≡ other.now) }
    {
        self.is_of_file(other)
            && self.size == other.size
            && self.seconds == other.seconds
            && self.nanoseconds == other.nanoseconds
    }

    fn is_of_file(&self, other: &Stamp) -> bool
        ensures { IsTrue result ↔ AreOfOne self.now other.now }
    {
        self.device == other.device && self.inode == other.inode
    }
}

// Whether two states of files are one.
fn is_same(one: &Option<Stamp>, other: &Option<Stamp>) -> bool
    ensures { IsTrue result ↔ (one.now ≡ other.now) }
{
    match (one, other) {
        (Some(one), Some(other)) => one.is_same(other),
        (None, None) => true,
        _ => false,
    }
}

/// A name that was loaded, and the state in which its file was then, if there was one.
#[derive(Drop)]
pub struct Seen {
    pub name: Name,
    pub stamp: Option<Stamp>,
}

/// A copy of a name, and room for what will be seen of its file.
pub fn room_for(seen: &mut Vec<Seen>, name: &Name) -> Result<Name, Memory>
    ensures same { seen.new.items ≡ seen.old.items }
    ensures room { OnOk result (vec_len seen.new < vec_capacity seen.new) }
    ensures copy { IfOk result (λ copy. copy ≡ name.now) }
{
    seen.reserve(1)?;
    name.copy()
}

/// Keeps what was seen last of a file.
pub fn keep(seen: &mut Vec<Seen>, name: Name, stamp: Option<Stamp>)
    requires { vec_len seen.old < vec_capacity seen.old }
    ensures { Any (IsSeen name stamp) seen.new.items }
{
    seen.retain(|one| !one.name.same(&name));
    seen.push(Seen { name, stamp }).unwrap();
}

// Whether it was the file with this stamp, maybe in another state.
fn is_of(one: &Seen, stamp: &Stamp) -> bool
    ensures { IsTrue result ↔ WasLoaded stamp.now one.now }
{
    match &one.stamp {
        Some(other) => other.is_of_file(stamp),
        None => false,
    }
}

/// Whether a file was loaded under another name than this.
pub fn is_another(seen: &[Seen], name: &Name, stamp: &Stamp) -> bool
    ensures { IsTrue result ↔ Any (WasAnother name.now stamp.now) seen.now }
{
    seen.iter()
        .any(|one| !one.name.same(name) && is_of(one, stamp))
}

/// Whether the file of a name that was loaded isn't any more as it was then.
pub fn is_changed(seen: &[Seen], name: &Name, stamp: Option<Stamp>) -> bool
    ensures { IsTrue result ↔ Any (WasOther name.now stamp) seen.now }
{
    seen.iter()
        .any(|one| one.name.same(name) && !is_same(&one.stamp, &stamp))
}

/// Whether a file was loaded.
pub fn is_loaded(seen: &[Seen], stamp: &Stamp) -> bool
    ensures { IsTrue result ↔ Any (WasLoaded stamp.now) seen.now }
{
    seen.iter().any(|one| is_of(one, stamp))
}
