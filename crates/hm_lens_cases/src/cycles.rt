//! Programs that no lens file describes.
use hm_schema::{NodeId, Options};
use hm_terms::{Definition, Program, Term};
use hm_terms_cycles::first_in_bad_cycle;
use hm_tree::{Memory, Name};
use std::alloc::Global;
use std::boxed::Box;
use std::test::Fail;

fn call(alloc: Global, name: &str) -> Result<Term, Memory> {
    Ok(Term::Call(Name::from_text(alloc, name)?))
}

// `hoist(m)`, and then another lens.
fn after_hoist(alloc: Global, second: Term) -> Result<Term, Memory> {
    let first = Term::Hoist(Name::from_text(alloc, "m")?);
    let first = Box::new(alloc, first)?;
    Ok(Term::Seq(first, Box::new(alloc, second)?))
}

// The program whose one definition is A.
fn program(alloc: Global, body: Term) -> Result<Program, Memory> {
    let mut definitions = Vec::new(alloc);
    definitions.push(Definition {
        name: Name::from_text(alloc, "A")?,
        source: NodeId { place: 0 },
        view: NodeId { place: 0 },
        body,
    })?;
    Ok(Program {
        format: Name::from_text(alloc, "text")?,
        options: Options {
            pairs: Vec::new(alloc),
            type_names: Vec::new(alloc),
            types: Vec::new(alloc),
        },
        definitions,
        main: Term::Id,
    })
}

#[test]
fn a_call_of_a_definition_that_is_not_there(rt: HostRuntime) -> Result<(), Fail> {
    let alloc = rt.alloc();
    let program = program(alloc, call(alloc, "B")?)?;
    assert_eq!(rt; first_in_bad_cycle(alloc, &program)?, None);
    Ok(())
}

// A lens for each of two names.
fn row(alloc: Global, one: (&str, Term), two: (&str, Term)) -> Result<Term, Memory> {
    let mut lenses = Vec::new(alloc);
    lenses.push((Name::from_text(alloc, one.0)?, one.1))?;
    lenses.push((Name::from_text(alloc, two.0)?, two.1))?;
    Ok(Term::Each(lenses))
}

#[test]
fn the_first_lens_of_a_name_counts(rt: HostRuntime) -> Result<(), Fail> {
    let alloc = rt.alloc();
    let shadowed = after_hoist(alloc, call(alloc, "A")?)?;
    let body = row(alloc, ("x", Term::Id), ("x", shadowed))?;
    let program = program(alloc, body)?;
    assert_eq!(rt; first_in_bad_cycle(alloc, &program)?, None);
    Ok(())
}
