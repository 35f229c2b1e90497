//! The list of calls that failed.
ghost use Rattle.std.specs.Prelude.{◌≡◌, ◌<◌, ◌++◌, ◌∷◌, [], IfOk, OnOk, vec_len, vec_capacity};

use crate::outside::{Failure, Kind};
use hm_tree::{Memory, Name};

/// The entry of a call that may fail, with room for it in the list.
pub fn entry_for(failed: &mut Vec<Failure>, kind: Kind, name: &Name) -> Result<Failure, Memory>
    ensures same { failed.new.items ≡ failed.old.items }
    ensures room { OnOk result (vec_len failed.new < vec_capacity failed.new) }
    ensures entry { IfOk result (λ entry. (entry.kind ≡ kind) × (entry.name ≡ name.now)) }
{
    failed.reserve(1)?;
    Ok(Failure {
        kind,
        name: name.copy()?,
    })
}

/// Puts an entry behind the others, for which there is room.
pub fn note(failed: &mut Vec<Failure>, entry: Failure)
    requires { vec_len failed.old < vec_capacity failed.old }
    ensures { failed.new.items ≡ failed.old.items ++ entry ∷ [] }
{
    failed.push(entry).unwrap();
}
