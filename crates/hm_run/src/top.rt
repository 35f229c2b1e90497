//! The top call.
ghost use Rattle.std.specs.Prelude.{◌≡◌, ◌⊎◌, Some, map};
ghost use Rattle.hm_command_line.specs.declared.request.Command.TheVariants.{Sync, Plan};
ghost use Rattle.hm_run_files.specs.Steps.{WhereTold};
ghost use Rattle.hm_run_handed.specs.Handed.{handed};
ghost use Rattle.hm_run_words.specs.declared.ending.Ending.{Ending as EndingOf};
ghost use Rattle.hm_run_words.specs.Lines.{status_of};
ghost use Rattle.hm_run.specs.Endings.{HasPut, EndsAs, AsksFor, IsSynchronised, IsReported, IsShown, IsComplete};
ghost use Rattle.hm_run.specs.Stops.{ComesToOneEnd};

use crate::acting::carry_out;
use hm_format::Format;
use hm_outside::{Put, Sink, Store};
use hm_run_files::Stop;
use hm_run_handed::HandedIn;
use hm_run_words::{Ending, Output, line_of, status_of};
use hm_text_lens::TextLens;
use hm_tree::Name;
use std::alloc::Global;

// Puts out what the work has to say, in one piece; for want of memory it has nothing to say.
fn put_output<K: Sink>(alloc: Global, work: &Result<Output, Stop>, out: &mut K) -> Put
    ensures { HasPut work.now result (K.written out.old) (K.written out.new) (K.faults out.old) (K.faults out.new) }
{
    match work {
        Ok(output) => out.put(&output.text),
        Err(Stop::Memory) => Put::Memory,
        Err(stop) => match line_of(alloc, stop) {
            Ok(line) => out.put(&line),
            Err(_) => Put::Memory,
        },
    }
}

/// Carries out what the words ask for (`hm_command_line`), puts out what it comes to or the line of a refusal, and answers the
/// exit status. Lens files name the formats and the text lenses that are handed in; of formats of one tag, and of text
/// lenses of one name, the first counts.
pub fn run<S: Store, K: Sink>(
    alloc: Global,
    words: &[Name],
    store: &mut S,
    out: &mut K,
    formats: &[Box<dyn Format>],
    texts: &[Box<dyn TextLens>],
) -> u8
    // How each run ends: why, what it leaves in the store, what it puts out, and that no failed call is passed over.
    ensures ends { (ending : EndingOf) × (result ≡ status_of ending) × EndsAs (handed (λ b. means b) formats.now (map (λ b. meaning b) texts.now)) ending words.now
        (record { contents = S.contents store.old; failed = S.failed store.old; written = K.written out.old; faults = K.faults out.old })
        (record { contents = S.contents store.new; failed = S.failed store.new; written = K.written out.new; faults = K.faults out.new }) }

    // After 0 and 1 of `sync` the three files have the new texts: both replicas are read, through their formats and lenses, as the new
    // views, with what is hidden kept, and with the archive these are the one best safe result of what was read.
    ensures synchronised { AsksFor words.now Sync → (result ≡ 0) ⊎ (result ≡ 1) → WhereTold (S.contents store.old) (λ c. IsSynchronised (handed (λ b. means b) formats.now (map (λ b. meaning b) texts.now)) words.now c result (S.contents store.new)) }

    // After 0 and 1 of `sync`, and of `plan`, the conflicts that remain, or would, are put out, and each difference that is left has its own.
    ensures reported { AsksFor words.now Sync ⊎ AsksFor words.now Plan → (result ≡ 0) ⊎ (result ≡ 1) → WhereTold (S.contents store.old) (λ c. WhereTold (K.written out.old) (λ w. IsReported (handed (λ b. means b) formats.now (map (λ b. meaning b) texts.now)) words.now c w result (K.written out.new))) }

    // After 0 and 1 of any command what is put out is the text of the one effect of its files, and nothing else.
    ensures shown { (result ≡ 0) ⊎ (result ≡ 1) → WhereTold (S.contents store.old) (λ c. WhereTold (K.written out.old) (λ w. IsShown (handed (λ b. means b) formats.now (map (λ b. meaning b) texts.now)) words.now c w result (K.written out.new))) }

    // Refused input changes no file.
    ensures refused { (result ≡ 2) ⊎ (result ≡ 3) → WhereTold (S.contents store.old) (λ c. S.contents store.new ≡ Some c) }

    // No command but `sync` changes a file, whatever it answers.
    ensures untouched { ¬ (AsksFor words.now Sync) → WhereTold (S.contents store.old) (λ c. S.contents store.new ≡ Some c) }

    // Where nothing outside fails, what can be done is, and what is refused is refused for this cause, unless memory runs out.
    ensures complete { S.failed store.new ≡ S.failed store.old → K.faults out.new ≡ K.faults out.old → WhereTold (S.contents store.old) (λ c. IsComplete (handed (λ b. means b) formats.now (map (λ b. meaning b) texts.now)) words.now c result (S.contents store.new)) }

    // Wherever `sync` stops, it has carried out its plan as far as some file; and the same run again, from there or from any other
    // such stop, is refused nothing and comes to the same files, with conflicts at the same paths. `plan` finds the same there.
    ensures again { AsksFor words.now Sync ⊎ AsksFor words.now Plan → ComesToOneEnd (handed (λ b. means b) formats.now (map (λ b. meaning b) texts.now)) words.now (S.contents store.old) (S.contents store.new) }
{
    let work = carry_out(alloc, words, store, HandedIn { formats, texts });
    let put = put_output(alloc, &work, out);
    status_of(&Ending { work, put })
}
