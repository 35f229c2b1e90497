//! Text lenses that are named and aren't there.
ghost use Rattle.std.specs.Prelude.{◌≡◌, ◌++◌, ◌∷◌, [], OnOk, IfErr};
ghost use Rattle.std.specs.Option.{option_map};
ghost use Rattle.hm_terms.specs.Programs.{lens_of, lenses_of, program_value};
ghost use Rattle.hm_types_rules.specs.TextNames.{text_names, text_names_of, program_text_names, AreKnown};
ghost use Rattle.hm_types_terms.specs.Courses.{classes_of};
ghost use Rattle.hm_types_terms.specs.TextTypes.{first_unknown};
ghost use Rattle.hm_types.specs.Checks.{IsTextTold};

use hm_terms::{Program, Term};
use hm_tree::Name;
use hm_types_terms::{TextType, TypeFault, classes_named};

/// Checks that there is each text lens that a program names. The fault has the first name, in reading order, that none has.
pub fn check_texts(program: &Program, texts: &[TextType]) -> Result<(), TypeFault>
    ensures known { OnOk result (AreKnown (classes_of texts.now) (program_text_names (program_value program.now))) }
    ensures fault { IfErr result (IsTextTold (classes_of texts.now) (program_value program.now)) }
{
    match unknown_in(program, texts) {
        None => Ok(()),
        Some(name) => Err(TypeFault::UnknownLens { name: name.copy()? }),
    }
}

// The first name in a program of which there is no text lens.
fn unknown_in<'a>(program: &'a Program, texts: &[TextType]) -> Option<&'a Name>
    ensures { option_map (λ x. x.now) result ≡ first_unknown (classes_of texts.now) (program_text_names (program_value program.now)) }
{
    for definition in &program.definitions {
        if let Some(name) = unknown(texts, &definition.body) {
            return Some(name);
        }
    }
    unknown(texts, &program.main)
}

// The same in a term.
#[cycle(unknown)]
fn unknown<'a>(texts: &[TextType], term: &'a Term) -> Option<&'a Name>
    ensures { option_map (λ x. x.now) result ≡ first_unknown (classes_of texts.now) (text_names (lens_of term.now)) }
{
    match term {
        Term::Id => None,
        Term::Const { .. } => None,
        Term::Hoist(_) => None,
        Term::Plunge(_) => None,
        Term::Copy(_, _) => None,
        Term::Merge(_, _) => None,
        Term::Call(_) => None,
        Term::Text(name) => unknown_name(texts, name),
        Term::Map(inner) => unknown(texts, inner),
        Term::List(inner) => unknown(texts, inner),
        Term::Seq(first, second) => unknown_of_two(texts, first, second),
        Term::Fork {
            inside,
            outside,
            ..
        } => unknown_of_two(texts, inside, outside),
        Term::ByConcrete { yes, no, .. } => unknown_of_two(texts, yes, no),
        Term::ByView { yes, no, .. } => unknown_of_two(texts, yes, no),
        Term::Each(rows) => unknown_of_rows(texts, rows),
    }
}

#[cycle(unknown)]
fn unknown_of_two<'a>(texts: &[TextType], first: &'a Term, second: &'a Term) -> Option<&'a Name>
    ensures { option_map (λ x. x.now) result ≡ first_unknown (classes_of texts.now) (text_names (lens_of first.now) ++ text_names (lens_of second.now)) }
{
    match unknown(texts, first) {
        Some(name) => Some(name),
        None => unknown(texts, second),
    }
}

#[cycle(unknown)]
fn unknown_of_rows<'a>(texts: &[TextType], rows: &'a [(Name, Term)]) -> Option<&'a Name>
    ensures { option_map (λ x. x.now) result ≡ first_unknown (classes_of texts.now) (text_names_of (lenses_of rows.now)) }
{
    for row in rows {
        if let Some(name) = unknown(texts, &row.1) {
            return Some(name);
        }
    }
    None
}

// A name, where no text lens has it.
fn unknown_name<'a>(texts: &[TextType], name: &'a Name) -> Option<&'a Name>
    ensures { option_map (λ x. x.now) result ≡ first_unknown (classes_of texts.now) (name.now ∷ []) }
{
    match classes_named(texts, name) {
        Some(_) => None,
        None => Some(name),
    }
}
