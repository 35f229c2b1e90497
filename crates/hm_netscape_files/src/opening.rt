//! Opening a file, which has to be one.
ghost use Rattle.std.specs.Prelude.{◌≡◌, OnOk, IfOk, IfErr, IsUtf8, MatchResult, Err};
ghost use Rattle.hm_netscape_files.specs.Files.{NetscapeReads, IsBadItem};
ghost use Rattle.hm_netscape_files.specs.Opened.{IsOpened};

use crate::heads::head_len;
use crate::tails::is_tail;
use hm_format::FormatFault;
use hm_marks_tokens::skip_folder;
use hm_netscape_entries::list_inside;
use std::str;

/// What stands in the outermost folder of a file, or why it is none.
pub fn opened(bytes: &[u8]) -> Result<&[u8], FormatFault>
    ensures inside { IfOk result (λ inside. IsOpened bytes.now inside.now) }
    ensures fault { IfErr result (λ fault. NetscapeReads bytes.now (Err fault)) }
{
    if let Err(error) = str::from_utf8(bytes) {
        return Err(FormatFault::NotUtf8 {
            at: error.valid_up_to(),
        });
    }
    match outermost(bytes) {
        Ok(inside) => Ok(inside),
        Err(number) => Err(FormatFault::BadItem { number }),
    }
}

// What stands in the outermost folder of a text, or the number of the first symbol that doesn't fit.
fn outermost(bytes: &[u8]) -> Result<&[u8], usize>
    requires { IsUtf8 bytes.now }
    ensures { MatchResult result (λ inside. IsOpened bytes.now inside.now) (IsBadItem bytes.now) }
{
    let Some(head) = head_len(bytes) else {
        return Err(0);
    };
    let (_, list) = bytes.split_at(head);
    match skip_folder(list) {
        Err(number) => Err(number),
        Ok((tail, _)) if is_tail(tail) => Ok(list_inside(list)),
        Ok((_, count)) => Err(count + 1),
    }
}
