//! Sets of names.
ghost use Rattle.std.specs.Prelude.{IfOk};
ghost use Rattle.hm_focal_terms.specs.Fronts.{IsSet};
ghost use Rattle.hm_focal_terms.specs.Reading.{IsFound};

use crate::front::{read_edge, read_sign};
use hm_tree::{Memory, NameSet};
use std::alloc::Global;

/// The set: names between braces.
pub fn read_set<'a>(alloc: Global, text: &'a [u8]) -> Result<Option<(NameSet, &'a [u8])>, Memory>
    ensures { IfOk result (IsFound IsSet text.now) }
{
    let Some(inner) = read_sign(text, b'{') else {
        return Ok(None);
    };
    let mut names = Vec::new(alloc);
    let mut left = inner;
    'names: loop {
        if let Some(rest) = read_sign(left, b'}') {
            return Ok(Some((NameSet::from_list(names)?, rest)));
        }
        let Some((name, more)) = read_edge(alloc, left)? else {
            return Ok(None);
        };
        names.push(name)?;
        left = more;
    }
}
