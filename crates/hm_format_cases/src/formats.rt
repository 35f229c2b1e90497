//! Options with keys that have no values, as no lens file writes them.
use crate::setting::{Texts, expect, names_of};
use hm_format::{Key, first_bad_key};
use hm_schema::Options;
use hm_tree::{Memory, Name};
use std::alloc::Global;
use std::test::Fail;

// The keys of options, each with its values.
type Pairs = &'static [(&'static str, Texts)];

const KEYS: [Key<'static>; 2] = [
    Key {
        name: "key",
        most: Some(1),
        required: true,
        declared: false,
    },
    Key {
        name: "show",
        most: None,
        required: false,
        declared: false,
    },
];

fn pairs_of(alloc: Global, pairs: Pairs) -> Result<Vec<(Name, Vec<Name>)>, Memory> {
    let mut made = Vec::new(alloc);
    for (key, values) in pairs {
        made.push((Name::from_text(alloc, key)?, names_of(alloc, values)?))?;
    }
    Ok(made)
}

fn bad_key(alloc: Global, pairs: Pairs) -> Result<Option<Name>, Memory> {
    let options = Options {
        pairs: pairs_of(alloc, pairs)?,
        type_names: Vec::new(alloc),
        types: Vec::new(alloc),
    };
    first_bad_key(alloc, &KEYS, &options)
}

// Options, and their first bad key, or none where that is empty.
const CASES: &[(Pairs, &str)] = &[
    (&[("key", &["a"]), ("show", &[])], ""),
    (&[("key", &[]), ("show", &["b"])], "key"),
    (&[("show", &["a"]), ("key", &[])], "key"),
];

#[test]
fn keys_may_have_no_values_unless_one_is_required(rt: HostRuntime) -> Result<(), Fail> {
    for (pairs, bad) in CASES {
        match bad_key(rt.alloc(), pairs)? {
            Some(key) => expect(key.text() == *bad, key.text())?,
            None => expect(bad.is_empty(), bad)?,
        }
    }
    Ok(())
}
