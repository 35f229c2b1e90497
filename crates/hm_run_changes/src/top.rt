//! The top call.
ghost use Rattle.std.specs.Prelude.{◌≡◌, ◌⊎◌, Some, IfOk, codes, map};
ghost use Rattle.hm_run_files.specs.Steps.{WhereTold};
ghost use Rattle.hm_run_handed.specs.Handed.{handed};
ghost use Rattle.hm_run_words.specs.declared.ending.Ending.{Ending as EndingOf};
ghost use Rattle.hm_run_words.specs.Lines.{status_of};
ghost use Rattle.hm_run_changes.specs.Endings.{line_of, HasPut, EndsAs, IsTold, IsComplete};

use crate::acting::carry_out;
use hm_format::Format;
use hm_outside::{Put, Sink, Store};
use hm_run_files::{Refusal, Stop};
use hm_run_handed::HandedIn;
use hm_run_words::{Ending, Output, status_of};
use hm_text_lens::TextLens;
use hm_tree::{Memory, Name};
use std::alloc::Global;

// The line of a run that stopped so: that of a plan, but for the usage line.
fn line_of(alloc: Global, stop: &Stop) -> Result<Vec<u8>, Memory>
    ensures { IfOk result (λ line. line.items ≡ line_of stop.now) }
{
    match stop {
        Stop::Refused(Refusal::Usage) => {
            let mut line = Vec::new(alloc);
            line.extend_from_slice(
                b"usage: harmony-changes [--most N] SCHEMA LENS_A LENS_B ARCHIVE A B\n",
            )?;
            Ok(line)
        }
        _ => hm_run_words::line_of(alloc, stop),
    }
}

// Puts out what the work has to say, in one piece; for want of memory it has nothing to say.
fn put_output<K: Sink>(alloc: Global, work: &Result<Output, Stop>, out: &mut K) -> Put
    ensures { HasPut work.now result (K.written out.old) (K.written out.new) (K.faults out.old) (K.faults out.new) }
{
    match work {
        Ok(output) => out.put(&output.text),
        Err(Stop::Memory) => Put::Memory,
        Err(stop) => match line_of(alloc, stop) {
            Ok(line) => out.put(&line),
            Err(_) => Put::Memory,
        },
    }
}

/// Tells what a synchronisation of the files that the words name would change, and answers the exit status. Lens files name
/// the formats and the text lenses that are handed in; of formats of one tag, and of text lenses of one name, the first
/// counts.
pub fn run<S: Store, K: Sink>(
    alloc: Global,
    words: &[Name],
    store: &mut S,
    out: &mut K,
    formats: &[Box<dyn Format>],
    texts: &[Box<dyn TextLens>],
) -> u8
    // How each run ends: why, what it puts out, and that no failed call is passed over.
    ensures ends { (ending : EndingOf) × (result ≡ status_of ending) × EndsAs (handed (λ b. means b) formats.now (map (λ b. meaning b) texts.now)) ending words.now
        (record { contents = S.contents store.old; failed = S.failed store.old; written = K.written out.old; faults = K.faults out.old })
        (record { contents = S.contents store.new; failed = S.failed store.new; written = K.written out.new; faults = K.faults out.new }) }

    // After 0, 1 and 7 the changes of the one plan of these words and contents are put out, and nothing else: of each side the
    // topmost paths that come and go, and the conflicts that remain. 7 is where more entries of a side go than may.
    ensures told { ((result ≡ 0) ⊎ (result ≡ 1)) ⊎ (result ≡ 7) → WhereTold (S.contents store.old) (λ c. WhereTold (K.written out.old) (λ w. IsTold (handed (λ b. means b) formats.now (map (λ b. meaning b) texts.now)) words.now c w result (K.written out.new))) }

    // No file is changed, whatever is answered.
    ensures untouched { WhereTold (S.contents store.old) (λ c. S.contents store.new ≡ Some c) }

    // Where nothing outside fails, what can be told is, and what is refused is refused for this cause, unless memory runs out.
    ensures complete { S.failed store.new ≡ S.failed store.old → K.faults out.new ≡ K.faults out.old → WhereTold (S.contents store.old) (λ c. IsComplete (handed (λ b. means b) formats.now (map (λ b. meaning b) texts.now)) words.now c result) }
{
    let work = carry_out(alloc, words, store, HandedIn { formats, texts });
    let put = put_output(alloc, &work, out);
    status_of(&Ending { work, put })
}
