//! Files of one name.
ghost use Rattle.std.specs.Prelude.{◌≡◌, find, map};
ghost use Rattle.std.specs.Str.{bytes_eq};
ghost use Rattle.hm_run_files.specs.Files.{file_of};
ghost use Rattle.hm_run_words.specs.Words.{clash, first_pair, is_written, slot_of, slot_pair};

use hm_run_files::{Named, Slot};
use hm_tree::Name;

fn is_same(one: &Name, two: &Name) -> bool
    ensures { result ≡ bytes_eq one.now two.now }
{
    one.text() == two.text()
}

// Whether a run writes the file of a slot.
fn is_written(slot: Slot) -> bool
    ensures { result ≡ is_written slot }
{
    matches!(slot, Slot::Archive | Slot::A | Slot::B)
}

// Whether two files have one name and may not: a file that is written has its name alone.
fn clash(one: Named<'_>, two: Named<'_>) -> bool
    ensures { result ≡ clash (file_of one.entry) (file_of two.entry) }
{
    is_same(one.name, two.name) && (is_written(one.slot) || is_written(two.slot))
}

// The slot of the first of some files that has the name of another file, and may not.
fn first_same(file: Named<'_>, others: &[Named<'_>]) -> Option<Slot>
    ensures { result ≡ slot_of (find (clash (file_of file.entry)) (map file_of others.now)) }
{
    for other in others {
        if clash(file, *other) {
            return Some(other.slot);
        }
    }
    None
}

/// The first two slots with one name that may not have it, by the first slot and then the second.
#[tactic(auto, using(crate::proofs::SamePairs::pair_found, crate::proofs::SamePairs::pair_later), unfolding(crate::specs::Words::first_pair))]
pub fn first_pair(files: &[Named<'_>]) -> Option<(Slot, Slot)>
    ensures { result ≡ slot_pair (first_pair (map file_of files.now)) }
{
    let [file, others @ ..] = files else {
        return None;
    };
    match first_same(*file, others) {
        Some(other) => Some((file.slot, other)),
        None => first_pair(others),
    }
}
