//! The bytes that stand for themselves in a spelling.
ghost use Rattle.std.specs.Prelude.{◌≡◌, ◌<◌, ◌≤◌, length, take, slice_index, false};
ghost use Rattle.hm_tree_spelling.specs.Spelling.{is_quote_or_backslash, is_control, is_plain, escaped};

/// How many of the first bytes stand for themselves.
pub fn plain_len(bytes: &[u8]) -> usize
    ensures within { result ≤ length bytes.now }
    ensures plain { escaped (take result bytes.now) ≡ take result bytes.now }
    ensures longest { result < length bytes.now → is_plain (slice_index bytes.now result) ≡ false }
{
    let mut at = 0;
    while at < bytes.len() && is_plain(bytes[at]) {
        at += 1;
    }
    at
}

/// Whether a byte is `"` or `\`.
pub fn is_quote_or_backslash(byte: u8) -> bool
    ensures { result ≡ is_quote_or_backslash byte }
{
    byte == b'"' || byte == b'\\'
}

/// Whether a byte is a control character of ASCII.
pub fn is_control(byte: u8) -> bool
    ensures { result ≡ is_control byte }
{
    byte < 32 || byte == 127
}

/// Whether a byte stands for itself.
pub fn is_plain(byte: u8) -> bool
    ensures { result ≡ is_plain byte }
{
    !(is_quote_or_backslash(byte) || is_control(byte))
}
