//! What a request comes to.
use hm_run_files::NewFile;
use hm_run_words::Output;

/// The files that are to be written, in order, and what is to be put out then.
#[derive(Drop)]
pub struct Effect<'a> {
    pub news: Vec<NewFile<'a>>,
    pub output: Output,
}
