//! Which of the lenses in a lens are equal.
//!
//! Equal lenses have equal views, so that one that was looked for at a node need not be looked for there again on account of
//! another. Each lens gets a hash, by which the first one that may be equal is found; that it is so is then seen by comparing.
ghost use Rattle.std.specs.Prelude.{◌≡◌, ◌++◌, ◌<◌, IsTrue, IfOk, OnOk, length, map};
ghost use Rattle.hm_terms.specs.Programs.{lens_of, lenses_of};
ghost use Rattle.hm_types_terms.specs.Numbers.{parts_of, parts_of_all};
ghost use Rattle.hm_types_terms.specs.Parts.{parts_inside};
ghost use Rattle.hm_types_terms.specs.Alike.{AreAlike, IsLike};

use hm_terms::Term;
use hm_tree::{Memory, Name};
use std::alloc::Global;
use std::collections::BTreeMap;

/// For each lens in a term the place of a lens that is equal: that of the first one that has its hash, if this is.
pub fn alike(alloc: Global, term: &Term) -> Result<Vec<usize>, Memory>
    ensures count { IfOk result (λ v. length v.items ≡ length (parts_of (lens_of term.now))) }
    ensures alike { IfOk result (λ v. AreAlike (parts_of (lens_of term.now)) v.items) }
{
    let mut all = Vec::new(alloc);
    let mut hashes = Vec::new(alloc);
    push_lenses(&mut all, &mut hashes, term)?;
    Ok(all_alike(alloc, &all, &hashes)?)
}

fn all_alike(alloc: Global, all: &[&Term], hashes: &[u64]) -> Result<Vec<usize>, Memory>
    ensures count { IfOk result (λ v. length v.items ≡ length all.now) }
    ensures alike { IfOk result (λ v. AreAlike (map (λ t. lens_of t.now) all.now) v.items) }
{
    let mut firsts = BTreeMap::new(alloc);
    let mut places = Vec::with_capacity(alloc, all.len())?;
    for place in 0..all.len() {
        let first = first_hashed(&mut firsts, hashes, place)?;
        places.push(like(all, first, place))?;
    }
    Ok(places)
}

// Where the hash of a place stands first.
fn first_hashed(
    firsts: &mut BTreeMap<u64, usize>,
    hashes: &[u64],
    place: usize,
) -> Result<usize, Memory> {
    if place >= hashes.len() {
        return Ok(place);
    }
    if let Some(first) = firsts.get(&hashes[place]) {
        return Ok(*first);
    }
    firsts.insert(hashes[place], place)?;
    Ok(place)
}

// The first of two places, if the lenses there are equal, else the second.
fn like(all: &[&Term], first: usize, place: usize) -> usize
    requires { place < length all.now }
    ensures { IsLike (map (λ t. lens_of t.now) all.now) place result }
{
    if first < place && equal(all[first], all[place]) {
        first
    } else {
        place
    }
}

// Whether two terms are equal, as far as it is looked at: those with trees, sets of names or rows count as different.
#[cycle(equal)]
fn equal(one: &Term, two: &Term) -> bool
    ensures { IsTrue result → lens_of one.now ≡ lens_of two.now }
{
    match (one, two) {
        (Term::Id, Term::Id) => true,
        (Term::Hoist(name), Term::Hoist(other)) => name.same(other),
        (Term::Plunge(name), Term::Plunge(other)) => name.same(other),
        (Term::Text(name), Term::Text(other)) => name.same(other),
        (Term::Call(name), Term::Call(other)) => name.same(other),
        (Term::Copy(one, two), Term::Copy(three, four)) => one.same(three) && two.same(four),
        (Term::Merge(one, two), Term::Merge(three, four)) => one.same(three) && two.same(four),
        (Term::Map(inner), Term::Map(other)) => equal(inner, other),
        (Term::List(inner), Term::List(other)) => equal(inner, other),
        (Term::Seq(one, two), Term::Seq(three, four)) => equal(one, three) && equal(two, four),
        (
            Term::ByConcrete { name, yes, no },
            Term::ByConcrete {
                name: other,
                yes: then,
                no: otherwise,
            },
        ) => name.same(other) && equal(yes, then) && equal(no, otherwise),
        (
            Term::ByView {
                name,
                shown,
                yes,
                no,
            },
            Term::ByView {
                name: other,
                shown: seen,
                yes: then,
                no: otherwise,
            },
        ) => name.same(other) && shown.same(seen) && equal(yes, then) && equal(no, otherwise),
        _ => false,
    }
}

// Puts a lens and those inside it behind others, and its hash and theirs behind others: its hash.
#[cycle(lenses)]
fn push_lenses<'a>(
    all: &mut Vec<&'a Term>,
    hashes: &mut Vec<u64>,
    term: &'a Term,
) -> Result<u64, Memory>
    ensures { OnOk result (map (λ t. lens_of t.now) all.new.items ≡ map (λ t. lens_of t.now) all.old.items ++ parts_of (lens_of term.now)) }
{
    let place = hashes.len();
    all.push(term)?;
    hashes.push(0)?;
    let hash = push_inside(all, hashes, term)?;
    set(hashes, place, hash);
    Ok(hash)
}

// Puts those inside a lens there: the hash of the lens.
#[cycle(lenses)]
fn push_inside<'a>(
    all: &mut Vec<&'a Term>,
    hashes: &mut Vec<u64>,
    term: &'a Term,
) -> Result<u64, Memory>
    ensures { OnOk result (map (λ t. lens_of t.now) all.new.items ≡ map (λ t. lens_of t.now) all.old.items ++ parts_inside (lens_of term.now)) }
{
    match term {
        Term::Id => Ok(1),
        Term::Const { .. } => Ok(2),
        Term::Text(name) => Ok(named(3, name)),
        Term::Call(name) => Ok(named(4, name)),
        Term::Hoist(name) => Ok(named(5, name)),
        Term::Plunge(name) => Ok(named(6, name)),
        Term::Copy(first, second) => Ok(named(named(7, first), second)),
        Term::Merge(first, second) => Ok(named(named(8, first), second)),
        Term::Map(inner) => Ok(mixed(9, push_lenses(all, hashes, inner)?)),
        Term::List(inner) => Ok(mixed(10, push_lenses(all, hashes, inner)?)),
        Term::Seq(first, second) => Ok(push_both(all, hashes, 11, first, second)?),
        Term::Fork {
            inside,
            outside,
            ..
        } => Ok(push_both(all, hashes, 12, inside, outside)?),
        Term::ByConcrete { name, yes, no } => {
            Ok(push_both(all, hashes, named(13, name), yes, no)?)
        }
        Term::ByView {
            name,
            shown,
            yes,
            no,
        } => Ok(push_both(all, hashes, named(named(14, name), shown), yes, no)?),
        Term::Each(rows) => Ok(push_rows(all, hashes, rows)?),
    }
}

#[cycle(lenses)]
fn push_both<'a>(
    all: &mut Vec<&'a Term>,
    hashes: &mut Vec<u64>,
    kind: u64,
    first: &'a Term,
    second: &'a Term,
) -> Result<u64, Memory>
    ensures { OnOk result (map (λ t. lens_of t.now) all.new.items ≡ map (λ t. lens_of t.now) all.old.items ++ (parts_of (lens_of first.now) ++ parts_of (lens_of second.now))) }
{
    let one = push_lenses(all, hashes, first)?;
    let two = push_lenses(all, hashes, second)?;
    Ok(mixed(mixed(kind, one), two))
}

#[cycle(lenses)]
fn push_rows<'a>(
    all: &mut Vec<&'a Term>,
    hashes: &mut Vec<u64>,
    rows: &'a [(Name, Term)],
) -> Result<u64, Memory>
    ensures { OnOk result (map (λ t. lens_of t.now) all.new.items ≡ map (λ t. lens_of t.now) all.old.items ++ parts_of_all (lenses_of rows.now)) }
{
    for row in rows {
        push_lenses(all, hashes, &row.1)?;
    }
    Ok(15)
}

// Sets a hash, if it is there.
fn set(hashes: &mut Vec<u64>, place: usize, hash: u64) {
    if place < hashes.len() {
        hashes[place] = hash;
    }
}

// A hash that a name was mixed into.
fn named(hash: u64, name: &Name) -> u64 {
    let mut hash = mixed(hash, 0);
    for byte in name.bytes() {
        hash = mixed(hash, *byte as u64);
    }
    hash
}

// A number that tells two numbers from most other ones.
fn mixed(one: u64, two: u64) -> u64 {
    (one.rotate_left(7) ^ two).wrapping_mul(0x9e37_79b9_7f4a_7c15)
}
