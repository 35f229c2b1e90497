//! Opening lens files.
ghost use Rattle.std.specs.Prelude.{◌≡◌, IfOk, map};
ghost use Rattle.hm_schema.specs.Values.{options_value};
ghost use Rattle.hm_schema.specs.Membership.{HasNoTwins};
ghost use Rattle.hm_terms.specs.Programs.{program_value};
ghost use Rattle.hm_terms.specs.WellFormedPrograms.{IsWellFormed};
ghost use Rattle.hm_focal.specs.LensFiles.{ReadsLens};
ghost use Rattle.hm_types.specs.Checks.{Checks, IsAccepted};
ghost use Rattle.hm_format.specs.Formats.{IsLawful};
ghost use Rattle.hm_format.specs.Options.{AreSound};
ghost use Rattle.hm_run_files.specs.Steps.{Computes, Told};
ghost use Rattle.hm_run_sides.specs.Formats.{HasFormat};
ghost use Rattle.hm_run_handed.specs.Handed.{handed_in};
ghost use Rattle.hm_run_sides.specs.Stops.{lens_stop, type_stop};
ghost use Rattle.hm_run_sides.specs.Sides.{seen, view_of, side_value, source_found, GivesSource, OpensSide, IsSide};

use crate::formats::find_format;
use crate::side::Side;
use crate::stops::{format_stop, lens_stop, type_stop};
use hm_focal::read_lens;
use hm_format::{Format, values_are_texts};
use hm_run_files::{Slot, Stop};
use hm_run_handed::HandedIn;
use hm_schema::{Options, Schema};
use hm_terms::{Program, Typed};
use hm_text_lens::TextLens;
use hm_types::check;
use std::alloc::Global;

/// The side of a lens file, or why it isn't one: its first bad line, its format, the format's options, or the first
/// condition by which its program isn't typed. Of formats of one tag, and of text lenses of one name, the first counts.
pub fn open_side(alloc: Global, slot: Slot, given: HandedIn<'_>, bytes: &[u8]) -> Result<Side, Stop>
    ensures opens { Computes (OpensSide (handed_in given.entry means meaning) slot bytes.now) (seen side_value result) }
    ensures side { IfOk result (λ side. IsSide (handed_in given.entry means meaning) (side_value side)) }
{
    let program = read_program(alloc, slot, bytes)?;
    let place = find_format(slot, given.formats, &program.format)?;
    values_are_texts(&program.options.pairs);
    let source = source_of(alloc, slot, given.formats, place, &program.options)?;
    let typed = check_program(alloc, slot, given.texts, program, &source)?;
    Ok(Side { place, typed })
}

// The program of a lens file.
fn read_program(alloc: Global, slot: Slot, bytes: &[u8]) -> Result<Program, Stop>
    ensures reads { Computes (Told (lens_stop slot) (ReadsLens bytes.now)) (seen program_value result) }
    ensures well_formed { IfOk result (λ p. IsWellFormed (program_value p)) }
{
    match read_lens(alloc, bytes) {
        Ok(program) => Ok(program),
        Err(fault) => Err(lens_stop(slot, fault)),
    }
}

// The schema that the format at a place gives under options.
fn source_of(
    alloc: Global,
    slot: Slot,
    formats: &[Box<dyn Format>],
    place: usize,
    options: &Options,
) -> Result<Schema, Stop>
    requires format { HasFormat (λ b. means b) formats.now place IsLawful }
    requires options { AreSound (options_value options.now) }
    ensures gives { Computes (GivesSource (λ b. means b) formats.now slot place (options_value options.now)) result }
    ensures no_twins { IfOk result HasNoTwins }
{
    source_by(alloc, slot, &formats[place], options)
}

// The same by a format.
fn source_by(
    alloc: Global,
    slot: Slot,
    format: &Box<dyn Format>,
    options: &Options,
) -> Result<Schema, Stop>
    requires { AreSound (options_value options.now) }
    ensures { Computes (λ found. found ≡ source_found slot ((means format.now).schema_of (options_value options.now))) result }
{
    match format.schema(alloc, options) {
        Ok(schema) => Ok(schema),
        Err(fault) => Err(format_stop(slot, fault)),
    }
}

// The same program, typed over a schema.
fn check_program(
    alloc: Global,
    slot: Slot,
    texts: &[Box<dyn TextLens>],
    program: Program,
    source: &Schema,
) -> Result<Typed, Stop>
    requires program { IsWellFormed (program_value program) }
    requires source { HasNoTwins source.now }
    ensures checks { Computes (Told (type_stop slot) (Checks (map (λ b. meaning b) texts.now) (program_value program) source.now)) (seen view_of result) }
    ensures accepted { IfOk result (IsAccepted (map (λ b. meaning b) texts.now) (program_value program) source.now) }
{
    match check(alloc, program, source, texts) {
        Ok(typed) => Ok(typed),
        Err(fault) => Err(type_stop(slot, fault)),
    }
}
