//! The lenses in a term, by their numbers.
ghost use Rattle.std.specs.Prelude.{◌≡◌, ◌<◌, ◌++◌, ◌^◌, IfOk, OnOk, IsUtf8, length, map, suc};
ghost use Rattle.hm_terms.specs.Lenses.{Lens};
ghost use Rattle.hm_terms.specs.Programs.{lens_of, lenses_of};
ghost use Rattle.hm_types_rules.specs.Texts.{HasTexts, HaveTexts};
ghost use Rattle.hm_types_terms.specs.Numbers.{parts_of, parts_of_all};
ghost use Rattle.hm_types_terms.specs.Parts.{part_of, parts_inside, copies, IsFirstCopy};

use hm_terms::Term;
use hm_tree::{Memory, Name};
use std::alloc::Global;

/// How many lenses a lens has, itself among them, and whether it copies.
#[derive(Clone, Copy)]
pub struct Part {
    pub size: usize,
    pub copies: bool,
}

/// The lenses in a term, in their order. The names that the term puts trees under are texts, which a proof knows then.
pub fn parts(alloc: Global, term: &Term) -> Result<Vec<Part>, Memory>
    ensures parts { IfOk result (λ v. v.items ≡ map part_of (parts_of (lens_of term.now))) }
    ensures room { OnOk result (suc (length (parts_of (lens_of term.now))) < 2 ^ 64) }
    ensures texts { OnOk result (HasTexts (lens_of term.now)) }
{
    let mut parts = Vec::new(alloc);
    push_parts(&mut parts, term)?;
    Ok(parts)
}

// A lens, and those inside it.
#[cycle(parts)]
fn push_parts(parts: &mut Vec<Part>, term: &Term) -> Result<(), Memory>
    ensures parts { OnOk result (parts.new.items ≡ parts.old.items ++ map part_of (parts_of (lens_of term.now))) }
    ensures texts { OnOk result (HasTexts (lens_of term.now)) }
{
    let place = parts.len();
    parts.push(Part {
        size: 0,
        copies: copies(term),
    })?;
    push_inside(parts, term)?;
    parts[place].size = parts.len() - place;
    Ok(())
}

// The lenses inside one.
#[cycle(parts)]
fn push_inside(parts: &mut Vec<Part>, term: &Term) -> Result<(), Memory>
    ensures parts { OnOk result (parts.new.items ≡ parts.old.items ++ map part_of (parts_inside (lens_of term.now))) }
    ensures texts { OnOk result (HasTexts (lens_of term.now)) }
{
    match term {
        Term::Id => Ok(()),
        Term::Const { .. } => Ok(()),
        Term::Text(_) => Ok(()),
        Term::Call(_) => Ok(()),
        Term::Hoist(name) => Ok(see(name)),
        Term::Plunge(name) => Ok(see(name)),
        Term::Copy(_, name) => Ok(see(name)),
        Term::Merge(_, name) => Ok(see(name)),
        Term::Map(inner) => Ok(push_parts(parts, inner)?),
        Term::List(inner) => Ok(push_parts(parts, inner)?),
        Term::Seq(first, second) => Ok(push_both(parts, first, second)?),
        Term::Fork {
            inside,
            outside,
            ..
        } => Ok(push_both(parts, inside, outside)?),
        Term::ByConcrete { yes, no, .. } => Ok(push_both(parts, yes, no)?),
        Term::ByView { yes, no, .. } => Ok(push_both(parts, yes, no)?),
        Term::Each(rows) => Ok(push_rows(parts, rows)?),
    }
}

#[cycle(parts)]
fn push_both(parts: &mut Vec<Part>, first: &Term, second: &Term) -> Result<(), Memory>
    ensures parts { OnOk result (parts.new.items ≡ parts.old.items ++ map part_of (parts_of (lens_of first.now) ++ parts_of (lens_of second.now))) }
    ensures texts { OnOk result (HasTexts (lens_of first.now) × HasTexts (lens_of second.now)) }
{
    push_parts(parts, first)?;
    push_parts(parts, second)?;
    Ok(())
}

#[cycle(parts)]
fn push_rows(parts: &mut Vec<Part>, rows: &[(Name, Term)]) -> Result<(), Memory>
    ensures parts { OnOk result (parts.new.items ≡ parts.old.items ++ map part_of (parts_of_all (lenses_of rows.now))) }
    ensures texts { OnOk result (HaveTexts (lenses_of rows.now)) }
{
    for row in rows {
        push_parts(parts, &row.1)?;
    }
    Ok(())
}

// A name is a text.
fn see(name: &Name)
    ensures { IsUtf8 name.now }
{
    let _ = name.text();
}

// Whether a lens copies.
fn copies(term: &Term) -> bool
    ensures { result ≡ copies (lens_of term.now) }
{
    match term {
        Term::Copy(_, _) => true,
        _ => false,
    }
}

/// The number of the first lens that copies, or 1.
pub fn first_copy(parts: &[Part]) -> usize
    ensures { (l : Lens) → parts.now ≡ map part_of (parts_of l) → IsFirstCopy l result }
{
    for place in 0..parts.len() {
        if parts[place].copies {
            return place + 1;
        }
    }
    1
}
