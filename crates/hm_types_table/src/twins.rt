//! Twins of nodes.
ghost use Rattle.std.specs.Prelude.{◌≡◌, ◌++◌, OnOk};

use hm_tree::{Memory, Name};

/// Puts copies of twins behind twins.
pub fn push_twins(twins: &mut Vec<(Name, Name)>, more: &[(Name, Name)]) -> Result<(), Memory>
    ensures { OnOk result (twins.new.items ≡ twins.old.items ++ more.now) }
{
    for twin in more {
        twins.push((twin.0.copy()?, twin.1.copy()?))?;
    }
    Ok(())
}
