//! White space, and searching bytes.
ghost use Rattle.std.specs.Prelude.{◌≡◌, ◌==◌};
ghost use Rattle.std.specs.List.{position_or_len};
ghost use Rattle.hm_marks_tokens.specs.Bytes.{is_white, begins_white};

use memchr::memchr;

// How many bytes stand before the first of a kind, or before the end.
pub(crate) fn len_before(byte: u8, bytes: &[u8]) -> usize
    ensures { result ≡ position_or_len (λ b. b == byte) bytes.now }
{
    match memchr(byte, bytes) {
        Some(place) => place,
        None => bytes.len(),
    }
}

// Whether bytes are white space.
pub(crate) fn is_white(bytes: &[u8]) -> bool
    ensures { result ≡ is_white bytes.now }
{
    bytes.iter().all(|byte| byte.is_ascii_whitespace())
}

// Whether bytes are none, or begin with white space.
pub(crate) fn begins_white(bytes: &[u8]) -> bool
    ensures { result ≡ begins_white bytes.now }
{
    match bytes.first() {
        Some(byte) => byte.is_ascii_whitespace(),
        None => true,
    }
}
