//! The columns of a header, by their names.
ghost use Rattle.std.specs.Prelude.{◌≡◌, ◌≢◌, [], Some, None, IsTrue, IsUtf8, All, IfOk, OnOk, cond, MatchOption, map};
ghost use Rattle.std.specs.Option.{option_or};
ghost use Rattle.std.specs.Ordering.{eq_by_cmp};
ghost use Rattle.std.specs.BTreeMap.{get};
ghost use Rattle.std.specs.FinSet.{contains, from_list};
ghost use Rattle.csv.specs.Records.{fields_of};
ghost use Rattle.hm_tree.specs.Names.{Name as NameValue, name_cmp};
ghost use Rattle.hm_csv_records.specs.Rows.{column};

use crate::fields::field;
use csv::ByteRecord;
use hm_tree::{Memory, Name, NameSet};
use std::alloc::Global;
use std::collections::BTreeMap;

/// For each of some names the place of the first field that is this name when it's cleaned; none where a name has no such
/// field.
pub fn columns(
    alloc: Global,
    header: &ByteRecord,
    names: &[Name],
) -> Result<Option<Vec<usize>>, Memory>
    requires { All IsUtf8 (fields_of header.now) }
    ensures { IfOk result (λ found. MatchOption found (¬ (All (λ k. column k (fields_of header.now) ≢ None) names.now)) (λ places. map (λ k. column k (fields_of header.now)) names.now ≡ map Some places.items)) }
{
    let wanted = set_of(alloc, names)?;
    let titles = titles(alloc, header, &wanted)?;
    let mut places = Vec::with_capacity(alloc, names.len())?;
    for name in names {
        let Some(place) = titles.get(name) else {
            return Ok(None);
        };
        places.push(*place)?;
    }
    Ok(Some(places))
}

// The set of some names.
fn set_of(alloc: Global, names: &[Name]) -> Result<NameSet, Memory>
    ensures { IfOk result (λ set. set ≡ from_list names.now) }
{
    let mut copies = Vec::with_capacity(alloc, names.len())?;
    for name in names {
        copies.push(name.copy()?)?;
    }
    NameSet::from_list(copies)
}

// The cleaned fields that are wanted, each with the place where it stands first. A header may have very many others.
fn titles(
    alloc: Global,
    header: &ByteRecord,
    wanted: &NameSet,
) -> Result<BTreeMap<Name, usize>, Memory>
    requires { All IsUtf8 (fields_of header.now) }
    ensures { IfOk result (λ titles. (k : NameValue) → IsTrue (contains wanted.now k) → get name_cmp titles k ≡ column k (fields_of header.now)) }
{
    let mut titles = BTreeMap::new(alloc);
    for place in 0..header.len() {
        let title = Name::cleaned_bytes(alloc, field(header, place))?;
        note_wanted(&mut titles, wanted, title, place)?;
    }
    Ok(titles)
}

// Notes where a title stands, if it's wanted.
fn note_wanted(
    titles: &mut BTreeMap<Name, usize>,
    wanted: &NameSet,
    title: Name,
    place: usize,
) -> Result<(), Memory>
    ensures { OnOk result ((k : NameValue) → IsTrue (contains wanted.now k) → get name_cmp titles.new k ≡ option_or (get name_cmp titles.old k) (cond (eq_by_cmp name_cmp k title) (Some place) None)) }
{
    if wanted.has(&title) {
        note(titles, title, place)?;
    }
    Ok(())
}

// Notes where a title stands, unless it stands before.
fn note(titles: &mut BTreeMap<Name, usize>, title: Name, place: usize) -> Result<(), Memory>
    ensures { OnOk result ((k : NameValue) → get name_cmp titles.new k ≡ option_or (get name_cmp titles.old k) (cond (eq_by_cmp name_cmp k title) (Some place) None)) }
{
    if titles.get(&title).is_none() {
        titles.insert(title, place)?;
    }
    Ok(())
}
