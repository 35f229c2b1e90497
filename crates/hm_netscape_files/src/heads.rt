//! The head of a file.
ghost use Rattle.std.specs.Prelude.{◌≡◌, ◌<◌, ◌≤◌, ◌&&◌, ◌||◌, ◌==◌, ℕ, length, take, drop, true, false, IfSome, MatchOption, MatchBool};
ghost use Rattle.hm_marks_tokens.specs.Attributes.{white_len};
ghost use Rattle.hm_netscape_files.specs.Heads as heads;
ghost use Rattle.hm_netscape_files.specs.Heads.{NoneBefore, IsHead, HasNoHead};

/// How many bytes stand before the outermost list of a file: its head. None where no list begins, where the head doesn't begin
/// with the declaration, or where a heading stands in it.
pub fn head_len(bytes: &[u8]) -> Option<usize>
    ensures { MatchOption result (HasNoHead bytes.now) (IsHead bytes.now) }
{
    let len = list_place(bytes)?;
    let (head, _) = bytes.split_at(len);
    if !is_declared(head) {
        return None;
    }
    if has_heading(head) {
        return None;
    }
    Some(len)
}

// Where the first list begins.
fn list_place(bytes: &[u8]) -> Option<usize>
    ensures place { MatchOption result (NoneBefore heads.begins_list (length bytes.now) bytes.now) (λ place. (heads.begins_list (drop place bytes.now) ≡ true) × NoneBefore heads.begins_list place bytes.now) }
    ensures within { IfSome result (λ place. place < length bytes.now) }
{
    for place in 0..bytes.len() {
        if begins_list(bytes.split_at(place).1) {
            return Some(place);
        }
    }
    None
}

// Whether a heading begins anywhere.
fn has_heading(bytes: &[u8]) -> bool
    ensures { MatchBool result ((NoneBefore heads.begins_heading (length bytes.now) bytes.now) → ⊥) (NoneBefore heads.begins_heading (length bytes.now) bytes.now) }
{
    for place in 0..bytes.len() {
        if begins_heading(bytes.split_at(place).1) {
            return true;
        }
    }
    false
}

// Whether bytes begin with the declaration, behind a byte-order mark and white space where there are any.
fn is_declared(bytes: &[u8]) -> bool
    ensures { result ≡ heads.is_declared bytes.now }
{
    begins_with(
        b"<!DOCTYPE NETSCAPE-Bookmark-file-1>",
        behind_white(behind_mark(bytes)),
    )
}

// Bytes without the byte-order mark that they begin with.
fn behind_mark(bytes: &[u8]) -> &[u8]
    ensures { result.now ≡ heads.behind_mark bytes.now }
{
    if bytes.starts_with(b"\xef\xbb\xbf") {
        bytes.split_at(3).1
    } else {
        bytes
    }
}

// Bytes without the white space that they begin with.
pub(crate) fn behind_white(bytes: &[u8]) -> &[u8]
    ensures { result.now ≡ heads.behind_white bytes.now }
{
    bytes.split_at(white_len(bytes)).1
}

// How many bytes of white space bytes begin with.
fn white_len(bytes: &[u8]) -> usize
    ensures len { result ≡ white_len bytes.now }
    ensures within { result ≤ length bytes.now }
{
    for place in 0..bytes.len() {
        if !bytes[place].is_ascii_whitespace() {
            return place;
        }
    }
    bytes.len()
}

// Whether a list begins.
fn begins_list(bytes: &[u8]) -> bool
    ensures { result ≡ heads.begins_list bytes.now }
{
    begins_with(b"<dl", bytes) && ends_name(behind(bytes, 3))
}

// What stands behind the first bytes, so many if there are as many.
fn behind(bytes: &[u8], count: usize) -> &[u8]
    ensures { result.now ≡ drop count bytes.now }
{
    bytes.split_at(count.min(bytes.len())).1
}

// Whether a heading begins.
fn begins_heading(bytes: &[u8]) -> bool
    ensures { result ≡ heads.begins_heading bytes.now }
{
    begins_with(b"<h3", bytes)
}

// Whether the name of a tag ends here.
fn ends_name(bytes: &[u8]) -> bool
    ensures { result ≡ heads.ends_name bytes.now }
{
    match bytes.first() {
        Some(byte) => *byte == b'>' || byte.is_ascii_whitespace(),
        None => false,
    }
}

// Whether bytes begin with a text, in any case.
fn begins_with(text: &[u8], bytes: &[u8]) -> bool
    ensures { result ≡ heads.begins_with text.now bytes.now }
{
    front(bytes, text.len()).eq_ignore_ascii_case(text)
}

// The first bytes, so many if there are as many.
fn front(bytes: &[u8], count: usize) -> &[u8]
    ensures { result.now ≡ take count bytes.now }
{
    bytes.split_at(count.min(bytes.len())).0
}
