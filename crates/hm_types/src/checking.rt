//! The check of a program.
ghost use Rattle.std.specs.Prelude.{IfOk, IfErr, OnOk, map};
ghost use Rattle.hm_schema.specs.Membership.{HasNoTwins};
ghost use Rattle.hm_terms.specs.Programs.{lens_of, program_value};
ghost use Rattle.hm_terms.specs.WellFormedPrograms.{IsWellFormed};
ghost use Rattle.hm_terms_cycles.specs.BadCycles.{HasNoBadCycle};
ghost use Rattle.hm_types_rules.specs.Programs.{classes_in};
ghost use Rattle.hm_types_terms.specs.Courses.{classes_of};
ghost use Rattle.hm_types.specs.Checks.{IsAccepted, IsAcceptedBy, IsFault, IsCycleTold, AreTwinsTold};

use crate::declaring::{behind, declared_of};
use crate::unknown::check_texts;
use hm_schema::Schema;
use hm_terms::{Program, Term, Typed};
use hm_terms_cycles::first_in_bad_cycle;
use hm_text_lens::TextLens;
use hm_tree::Memory;
use hm_types_schemas::{is_plain, numbered};
use hm_types_table::Table;
use hm_types_terms::{TextType, TypeFault, check_body, first_copy, parts, text_types, view_of};
use std::alloc::Global;

/// Checks that a program is typed over a schema: that there is each text lens that it names, that no definition is in a bad
/// cycle, that each one goes from its declared source to what is the same as its declared view, and that the main lens goes from
/// the schema to a view without twins. Of text lenses of one name the first counts.
pub fn check(
    alloc: Global,
    program: Program,
    source: &Schema,
    texts: &[Box<dyn TextLens>],
) -> Result<Typed, TypeFault>
    requires program { IsWellFormed (program_value program) }
    requires source { HasNoTwins source.now }
    ensures typed { IfOk result (IsAccepted (map (λ b. meaning b) texts.now) (program_value program) source.now) }
    ensures fault { IfErr result (IsFault (classes_in (map (λ b. meaning b) texts.now)) (program_value program) source.now) }
{
    let types = text_types(alloc, texts)?;
    Ok(checked(alloc, program, source, &types)?)
}

// The same by the types of text lenses.
fn checked(
    alloc: Global,
    program: Program,
    source: &Schema,
    texts: &[TextType],
) -> Result<Typed, TypeFault>
    requires program { IsWellFormed (program_value program) }
    requires source { HasNoTwins source.now }
    ensures typed { IfOk result (IsAcceptedBy (classes_of texts.now) (program_value program) source.now) }
    ensures fault { IfErr result (IsFault (classes_of texts.now) (program_value program) source.now) }
{
    check_texts(&program, texts)?;
    check_cycles(alloc, &program)?;
    let nodes = source.nodes();
    let by = nodes.len();
    let mut table = Table::of(alloc, nodes, &program.options.types)?;
    let declared = declared_of(alloc, &program.definitions, by)?;
    let mut number = 1;
    for definition in &program.definitions {
        let types = (behind(definition.source, by), behind(definition.view, by));
        check_body(
            alloc,
            &mut table,
            texts,
            &declared,
            number,
            &definition.body,
            types,
        )?;
        number += 1;
    }
    let shown = view_of(
        alloc,
        &mut table,
        texts,
        &declared,
        number,
        &program.main,
        source.root(),
    )?;
    let view = numbered(alloc, &table, shown)?;
    let _ = view.nodes();
    if !is_plain(&view) {
        return Err(twins_left(alloc, &program.main, number)?);
    }
    let source = source.copy(alloc)?;
    Ok(Typed {
        program,
        source,
        view,
    })
}

// Checks that no definition is in a bad cycle.
fn check_cycles(alloc: Global, program: &Program) -> Result<(), TypeFault>
    ensures guarded { OnOk result (HasNoBadCycle (program_value program.now)) }
    ensures fault { IfErr result (IsCycleTold (program_value program.now)) }
{
    match first_in_bad_cycle(alloc, program)? {
        None => Ok(()),
        Some(place) => Err(TypeFault::Unguarded {
            name: program.definitions[place].name.copy()?,
        }),
    }
}

// The fault of a main lens of this number whose view has twins.
fn twins_left(alloc: Global, main: &Term, number: usize) -> Result<TypeFault, Memory>
    ensures { IfOk result (AreTwinsTold (lens_of main.now) number) }
{
    let parts = parts(alloc, main)?;
    Ok(TypeFault::TwinLeft {
        definition: number,
        term: first_copy(&parts),
    })
}
