//! The names of the lenses of a file.
ghost use Rattle.std.specs.Prelude.{◌≡◌, IfOk, option_copied};
ghost use Rattle.hm_schema_lines.specs.Firsts.{AreFirsts};
ghost use Rattle.hm_focal.specs.OwnLines.{own_value, own_values, name_in, lens_names};

use crate::own::Own;
use hm_schema_lines::keep_first;
use hm_tree::{Memory, Name};
use indexmap::IndexMap;
use std::alloc::Global;
use std::string::String;

// The name of the lens that a line declares.
fn lens_name(own: &Own) -> Option<&Name>
    ensures { option_copied result ≡ name_in (own_value own.now) }
{
    match own {
        Own::Lens(lens) => Some(&lens.name),
        _ => None,
    }
}

/// The places, among the lens lines, of the first line of each name.
pub fn declared_lenses(alloc: Global, own: &[Own]) -> Result<IndexMap<String, usize>, Memory>
    ensures { IfOk result (λ declared. AreFirsts declared (lens_names (own_values own.now))) }
{
    let mut firsts = IndexMap::new(alloc);
    let mut place = 0;
    for line in own {
        if let Some(name) = lens_name(line) {
            keep_first(alloc, &mut firsts, name, place)?;
            place += 1;
        }
    }
    Ok(firsts)
}
