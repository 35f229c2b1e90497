//! Lenses that put each view alike, whatever tree was before.
ghost use Rattle.std.specs.Prelude.{◌≡◌, IsTrue};
ghost use Rattle.hm_terms.specs.Lenses.{Setting};
ghost use Rattle.hm_terms.specs.Programs.{lens_of};
ghost use Rattle.hm_eval.specs.Oblivious.{oblivious, IsOblivious};

use hm_terms::Term;

/// Whether a lens puts each view alike, whatever tree was before, by its form: then it needs none (the oblivious lenses of
/// TOPLAS 2007). A call of a definition counts as a lens that needs one.
pub fn is_oblivious(lens: &Term) -> bool
    ensures form { result ≡ oblivious (lens_of lens.now) }
    ensures meaning { IsTrue result → (S : Setting) → IsOblivious S (lens_of lens.now) }
{
    has_oblivious_form(lens)
}

// Whether a lens is of the form of oblivious ones.
fn has_oblivious_form(lens: &Term) -> bool
    ensures { result ≡ oblivious (lens_of lens.now) }
{
    match lens {
        Term::Id => true,
        Term::Hoist(_) => true,
        Term::Plunge(_) => true,
        Term::Copy(_, _) => true,
        Term::Const { .. } => false,
        Term::Merge(_, _) => false,
        Term::ByConcrete { .. } => false,
        Term::Text(_) => false,
        Term::Call(_) => false,
        Term::Map(inner) => has_oblivious_form(inner),
        Term::List(inner) => has_oblivious_form(inner),
        Term::Seq(first, second) => has_oblivious_form(first) && has_oblivious_form(second),
        Term::Fork {
            inside,
            outside,
            ..
        } => has_oblivious_form(inside) && has_oblivious_form(outside),
        Term::ByView { yes, no, .. } => has_oblivious_form(yes) && has_oblivious_form(no),
        Term::Each(terms) => {
            for term in terms {
                if !has_oblivious_form(&term.1) {
                    return false;
                }
            }
            true
        }
    }
}
