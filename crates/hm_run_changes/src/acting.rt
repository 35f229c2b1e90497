//! The steps of a run.
ghost use Rattle.hm_run_handed.specs.Handed.{handed_in};
ghost use Rattle.hm_run_changes.specs.Endings.{question_value, meaning as word_meaning, IsForPlan, Asks, Works};

use crate::finding::find_changes;
use crate::meaning::{Question, meaning_of};
use hm_outside::Store;
use hm_run_files::{Stop, load_all};
use hm_run_handed::HandedIn;
use hm_run_words::{Output, named};
use hm_tree::Name;
use std::alloc::Global;

// Loads the files of a question, and finds what is told of them.
fn act<S: Store>(
    alloc: Global,
    question: &Question,
    store: &mut S,
    given: HandedIn<'_>,
) -> Result<Output, Stop>
    requires { IsForPlan question.now.request }
    ensures { Asks (handed_in given.entry means meaning) (question_value question.now) (S.contents store.old) (S.contents store.new) (S.failed store.old) (S.failed store.new) result }
{
    let files = named(alloc, &question.request)?;
    let loads = load_all(alloc, store, &files)?;
    find_changes(alloc, question.most, &question.request.files, given, loads)
}

/// Carries out what the words mean.
pub fn carry_out<S: Store>(
    alloc: Global,
    words: &[Name],
    store: &mut S,
    given: HandedIn<'_>,
) -> Result<Output, Stop>
    ensures { Works (handed_in given.entry means meaning) (word_meaning words.now) (S.contents store.old) (S.contents store.new) (S.failed store.old) (S.failed store.new) result }
{
    let question = meaning_of(alloc, words)?;
    act(alloc, &question, store, given)
}
