//! Which lenses a term calls.
ghost use Rattle.std.specs.Prelude.{◌↔◌, IsTrue};
ghost use Rattle.hm_terms.specs.Programs.{lens_of};
ghost use Rattle.hm_focal.specs.Judging.{CallsOther};

use hm_schema_lines::first_place;
use hm_terms::Term;
use indexmap::IndexMap;
use std::string::String;

/// Whether a term calls a lens that isn't declared, anywhere.
pub fn calls_other(term: &Term, lenses: &IndexMap<String, usize>) -> bool
    ensures { IsTrue result ↔ CallsOther lenses.now (lens_of term.now) }
{
    match term {
        Term::Id => false,
        Term::Const { .. } => false,
        Term::Hoist(_) => false,
        Term::Plunge(_) => false,
        Term::Copy(_, _) => false,
        Term::Merge(_, _) => false,
        Term::Text(_) => false,
        Term::Call(name) => first_place(lenses, name).is_none(),
        Term::Map(inner) => calls_other(inner, lenses),
        Term::List(inner) => calls_other(inner, lenses),
        Term::Seq(first, second) => calls_other(first, lenses) | calls_other(second, lenses),
        Term::Fork {
            inside,
            outside,
            ..
        } => calls_other(inside, lenses) | calls_other(outside, lenses),
        Term::ByConcrete { yes, no, .. } => calls_other(yes, lenses) | calls_other(no, lenses),
        Term::ByView { yes, no, .. } => calls_other(yes, lenses) | calls_other(no, lenses),
        Term::Each(terms) => {
            for term in terms {
                if calls_other(&term.1, lenses) {
                    return true;
                }
            }
            false
        }
    }
}
