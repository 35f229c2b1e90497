//! Programs, read from files.
ghost use Rattle.std.specs.Prelude.{◌≢◌, ℕ, List, IfOk};
ghost use Rattle.hm_terms.specs.Programs.{program_value};
ghost use Rattle.hm_terms.specs.WellFormedPrograms.{IsWellFormed};
ghost use Rattle.hm_focal.specs.declared.fault.LensFault.TheVariants.{Memory};
ghost use Rattle.hm_focal.specs.Reading.{read_value};
ghost use Rattle.hm_focal.specs.LensFiles.{ReadsLens};
ghost use Rattle.hm_focal.specs.Judged.{AreSoundLines, JudgesLines};

use crate::fault::LensFault;
use crate::judge::first_bad;
use crate::lines::{Lines, read_lines};
use crate::program::{build_parts, named_nodes, type_names};
use hm_schema::Options;
use hm_schema_lines::{build_nodes, declared_nodes};
use hm_terms::Program;
use indexmap::IndexMap;
use std::alloc::Global;

// The lines of a file of which none is bad, and the nodes that they declare, each at the place of its line.
#[derive(Drop)]
struct SoundLines {
    lines: Lines,
    declared: IndexMap<String, usize>,
}

// The lines of a file, or its first bad one.
fn sound_lines(alloc: Global, bytes: &[u8]) -> Result<SoundLines, LensFault>
    ensures { JudgesLines bytes.now result }
{
    let lines = read_lines(alloc, bytes)?;
    let declared = declared_nodes(alloc, &lines.entries)?;
    match first_bad(alloc, &lines.entries, &lines.own, &declared)? {
        Some(place) => Err(LensFault::BadLens { line: place + 1 }),
        None => Ok(SoundLines { lines, declared }),
    }
}

// The program that the lines of a file describe; its main line or its format line may be missing behind them.
fn program_of(alloc: Global, sound: SoundLines) -> Result<Program, LensFault>
    requires { (bytes : List ℕ) × AreSoundLines bytes sound }
    ensures read { (bytes : List ℕ) → AreSoundLines bytes sound → result ≢ Err Memory → ReadsLens bytes (read_value result) }
    ensures well_formed { IfOk result (λ p. IsWellFormed (program_value p)) }
{
    let SoundLines { lines, declared } = sound;
    let entries = lines.entries;
    let nodes = named_nodes(alloc, &lines.own)?;
    let types = build_nodes(alloc, &entries, &declared, &nodes)?;
    let names = type_names(alloc, &entries, &nodes)?;
    let parts = build_parts(alloc, lines.own, &entries, &declared)?;
    let Some((format, definitions, main)) = parts.whole() else {
        return Err(LensFault::BadLens {
            line: entries.len() + 1,
        });
    };
    Ok(Program {
        format: format.word,
        options: Options {
            pairs: format.pairs,
            type_names: names,
            types,
        },
        definitions,
        main,
    })
}

/// The program of a file, or its first bad line.
pub fn read_lens(alloc: Global, bytes: &[u8]) -> Result<Program, LensFault>
    ensures read { result ≢ Err Memory → ReadsLens bytes.now (read_value result) }
    ensures well_formed { IfOk result (λ p. IsWellFormed (program_value p)) }
{
    let sound = sound_lines(alloc, bytes)?;
    program_of(alloc, sound)
}
