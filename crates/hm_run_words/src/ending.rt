//! How a run ends.

use hm_outside::Put;
use hm_run_files::Stop;

/// What a run that was carried out has to say: its exit status, and the text that it puts out.
#[derive(Drop)]
pub struct Output {
    pub status: u8,
    pub text: Vec<u8>,
}

/// How a run ended: what its work came to, and how what it had to say was put out. For want of memory nothing is.
#[derive(Drop)]
pub struct Ending {
    pub work: Result<Output, Stop>,
    pub put: Put,
}
