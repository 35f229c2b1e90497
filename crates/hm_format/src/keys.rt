//! The keys that a format has, and whether options are those of the format.
ghost use Rattle.std.specs.Prelude.{◌≡◌, ◌<◌, ◌&&◌, ◌||◌, IfOk, Some, codes, not, length, map, is_some};
ghost use Rattle.std.specs.List.{list_all};
ghost use Rattle.std.specs.Option.{option_map};
ghost use Rattle.std.specs.Ordering.{eq_by_cmp};
ghost use Rattle.std.specs.FinMap as entries;
ghost use Rattle.std.specs.FinSet as set;
ghost use Rattle.hm_tree.specs.Names.{name_cmp};
ghost use Rattle.hm_schema.specs.Values.{pair_value, options_value};
ghost use Rattle.hm_format.specs.Options.{rule_of, values_of as values_in, is_among, is_declared, has_double, exceeds, all_values, breaks, is_bad_at, is_missing, first_missing, bad_key};

use hm_schema::{Options, append_copies, copy_names};
use hm_tree::{Memory, Name, NameSet};
use std::alloc::Global;

/// A key of a format, with what its options have to be.
#[derive(Clone, Copy)]
pub struct Key<'a> {
    pub name: &'a str,
    /// How many values it has at the most; None where there is no bound.
    pub most: Option<usize>,
    /// Whether it has to have a value.
    pub required: bool,
    /// Whether each value is the name of a node that the lens file declares, as `Empty` never is.
    pub declared: bool,
}

/// The key for which options aren't those of a format with these keys: the first in their order that isn't one of them,
/// that stood before, or whose values are too many, aren't allowed, or stood before; else the first that has to have a
/// value and has none. None where the options are the format's.
pub fn first_bad_key(
    alloc: Global,
    keys: &[Key<'_>],
    options: &Options,
) -> Result<Option<Name>, Memory>
    ensures { IfOk result (λ found. found ≡ bad_key (map rule_of keys.now) (options_value options.now)) }
{
    for place in 0..options.pairs.len() {
        if is_bad(alloc, keys, options, place)? {
            return Ok(Some(options.pairs[place].0.copy()?));
        }
    }
    first_missing(alloc, keys, &options.pairs)
}

// Whether two texts are equal.
pub(crate) fn same_text(one: &str, two: &str) -> bool
    ensures { result ≡ eq_by_cmp name_cmp one.now two.now }
{
    one.cmp(two).is_eq()
}

/// The values of a key, of which there are none where it isn't written.
pub fn values_of<'a>(pairs: &'a [(Name, Vec<Name>)], key: &str) -> &'a [Name]
    ensures { result.now ≡ values_in (map pair_value pairs.now) key.now }
{
    for pair in pairs {
        if same_text(key, pair.0.text()) {
            return &pair.1;
        }
    }
    &[]
}

// The first key that has to have a value, and has none.
fn first_missing(
    alloc: Global,
    keys: &[Key<'_>],
    pairs: &[(Name, Vec<Name>)],
) -> Result<Option<Name>, Memory>
    ensures { IfOk result (λ found. found ≡ first_missing (map rule_of keys.now) (map pair_value pairs.now)) }
{
    for key in keys {
        if is_missing(key, pairs) {
            return Ok(Some(Name::from_text(alloc, key.name)?));
        }
    }
    Ok(None)
}

fn is_missing(key: &Key<'_>, pairs: &[(Name, Vec<Name>)]) -> bool
    ensures { result ≡ is_missing (map pair_value pairs.now) (rule_of key.now) }
{
    key.required && values_of(pairs, key.name).is_empty()
}

// Whether the pair at a place is bad.
fn is_bad(alloc: Global, keys: &[Key<'_>], options: &Options, place: usize) -> Result<bool, Memory>
    requires { place < length options.now.pairs.items }
    ensures { IfOk result (λ bad. bad ≡ is_bad_at (map rule_of keys.now) (options_value options.now) place) }
{
    let pair = &options.pairs[place];
    match find_key(keys, &pair.0) {
        Some(key) => breaks(
            alloc,
            key,
            &options.type_names,
            &options.pairs[..place],
            pair,
        ),
        None => Ok(true),
    }
}

// Whether a pair breaks the rule of its key, behind earlier pairs.
fn breaks(
    alloc: Global,
    key: &Key<'_>,
    nodes: &[Name],
    earlier: &[(Name, Vec<Name>)],
    pair: &(Name, Vec<Name>),
) -> Result<bool, Memory>
    ensures { IfOk result (λ bad. bad ≡ breaks (Some (rule_of key.now).1) nodes.now (map pair_value earlier.now) (pair_value pair.now)) }
{
    if has_key(earlier, &pair.0) || exceeds(key, pair.1.len()) {
        return Ok(true);
    }
    if is_undeclared(alloc, key, nodes, &pair.1)? {
        return Ok(true);
    }
    stand_before(alloc, earlier, &pair.1)
}

// Whether values have to be nodes that are declared, and one isn't.
fn is_undeclared(
    alloc: Global,
    key: &Key<'_>,
    nodes: &[Name],
    values: &[Name],
) -> Result<bool, Memory>
    ensures { IfOk result (λ bad. bad ≡ (key.now.declared && not (list_all (is_declared nodes.now) values.now))) }
{
    if key.declared {
        Ok(!are_declared(alloc, nodes, values)?)
    } else {
        Ok(false)
    }
}

// Whether a value stands twice, or in an earlier pair.
fn stand_before(
    alloc: Global,
    earlier: &[(Name, Vec<Name>)],
    values: &[Name],
) -> Result<bool, Memory>
    ensures { IfOk result (λ bad. bad ≡ (has_double values.now || not (list_all (λ v. not (is_among (all_values (map pair_value earlier.now)) v)) values.now))) }
{
    if has_double(alloc, values)? {
        return Ok(true);
    }
    Ok(!are_new(alloc, earlier, values)?)
}

fn find_key<'a>(keys: &'a [Key<'a>], name: &Name) -> Option<&'a Key<'a>>
    ensures { option_map (λ k. (rule_of k.now).1) result ≡ entries.find name_cmp name.now (map rule_of keys.now) }
{
    for key in keys {
        if same_text(name.text(), key.name) {
            return Some(key);
        }
    }
    None
}

fn has_key(pairs: &[(Name, Vec<Name>)], name: &Name) -> bool
    ensures { result ≡ is_some (entries.find name_cmp name.now (map pair_value pairs.now)) }
{
    for pair in pairs {
        if same_text(name.text(), pair.0.text()) {
            return true;
        }
    }
    false
}

fn exceeds(key: &Key<'_>, count: usize) -> bool
    ensures { result ≡ exceeds key.now.most count }
{
    match key.most {
        Some(most) => count > most,
        None => false,
    }
}

// Whether all of some names are those of nodes that are declared, where a lens file names these nodes.
fn are_declared(alloc: Global, nodes: &[Name], names: &[Name]) -> Result<bool, Memory>
    ensures { IfOk result (λ all. all ≡ list_all (is_declared nodes.now) names.now) }
{
    let nodes = NameSet::from_list(copy_names(alloc, nodes)?)?;
    for name in names {
        if !is_declared(&nodes, name) {
            return Ok(false);
        }
    }
    Ok(true)
}

fn is_declared(nodes: &NameSet, name: &Name) -> bool
    ensures { result ≡ (set.contains nodes.now name.now && not (eq_by_cmp name_cmp name.now (codes "Empty"))) }
{
    nodes.has(name) && !same_text(name.text(), "Empty")
}

// Whether a name stands twice among some.
fn has_double(alloc: Global, names: &[Name]) -> Result<bool, Memory>
    ensures { IfOk result (λ double. double ≡ has_double names.now) }
{
    let set = NameSet::from_list(copy_names(alloc, names)?)?;
    Ok(set.names().len() < names.len())
}

// Whether none of some names is a value of earlier pairs.
fn are_new(alloc: Global, earlier: &[(Name, Vec<Name>)], names: &[Name]) -> Result<bool, Memory>
    ensures { IfOk result (λ all. all ≡ list_all (λ v. not (is_among (all_values (map pair_value earlier.now)) v)) names.now) }
{
    let before = NameSet::from_list(earlier_values(alloc, earlier)?)?;
    for name in names {
        if before.has(name) {
            return Ok(false);
        }
    }
    Ok(true)
}

// The values of some pairs.
fn earlier_values(alloc: Global, pairs: &[(Name, Vec<Name>)]) -> Result<Vec<Name>, Memory>
    ensures { IfOk result (λ values. values.items ≡ all_values (map pair_value pairs.now)) }
{
    let mut values = Vec::new(alloc);
    for pair in pairs {
        append_copies(&mut values, &pair.1)?;
    }
    Ok(values)
}
