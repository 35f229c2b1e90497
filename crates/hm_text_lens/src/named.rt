//! Finding a text lens by its name.
ghost use Rattle.std.specs.Prelude.{◌≡◌, map};
ghost use Rattle.std.specs.Option.{option_map};
ghost use Rattle.hm_text_lens.specs.Naming.{is_named, first_named};

use crate::text_lens::TextLens;
use hm_tree::Name;
use std::cmp::Ordering;

/// The first text lens of a name, or none where none has it.
pub fn first_named<'a>(texts: &'a [Box<dyn TextLens>], name: &Name) -> Option<&'a Box<dyn TextLens>>
    ensures { option_map (λ r. meaning r.now) result ≡ first_named name.now (map (λ b. meaning b) texts.now) }
{
    for lens in texts {
        if is_named(lens, name) {
            return Some(lens);
        }
    }
    None
}

fn is_named(lens: &Box<dyn TextLens>, name: &Name) -> bool
    ensures { result ≡ is_named name.now (meaning lens.now) }
{
    matches!(name.order(lens.name()), Ordering::Equal)
}
