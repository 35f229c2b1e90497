//! What the words ask for.
ghost use Rattle.std.specs.Prelude.{IfOk};
ghost use Rattle.hm_run_words.specs.Words.{AnswersOrStops};
ghost use Rattle.hm_run_changes.specs.Endings.{question_value, IsForPlan, meaning};

use hm_changes_words::read_asked;
use hm_command_line::{Command, Request};
use hm_run_files::{Refusal, Stop};
use hm_run_words::with_names_apart;
use hm_tree::Name;
use std::alloc::Global;

/// How many entries of a side may go, if that is limited, and the request for a plan of six files.
#[derive(Drop)]
pub struct Question {
    pub most: Option<usize>,
    pub request: Request,
}

/// What the words ask for: a plan, with its files, which are apart by their names as those of a plan are; the usage line is
/// told where they ask for none.
pub fn meaning_of(alloc: Global, words: &[Name]) -> Result<Question, Stop>
    ensures means { AnswersOrStops question_value (meaning words.now) result }
    ensures plan { IfOk result (λ question. IsForPlan question.request) }
{
    let Some(asked) = read_asked(alloc, words)? else {
        return Err(Stop::Refused(Refusal::Usage));
    };
    let request = Request {
        quiet: false,
        command: Command::Plan,
        files: asked.files,
    };
    Ok(Question {
        most: asked.most,
        request: with_names_apart(alloc, request)?,
    })
}
