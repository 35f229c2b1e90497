//! The parts of a content line (RFC 5545, section 3.1; RFC 6350, section 3.3).
ghost use Rattle.std.specs.Prelude.{◌≡◌, ◌==◌, ◌&&◌, ℕ, drop, not, cond, IfSome, MatchOption};
ghost use Rattle.std.specs.List.{prefix_len};
ghost use Rattle.hm_lines.specs.declared.content.LineParts.{LineParts as Places};
ghost use Rattle.hm_lines.specs.Content.{colon, is_of_word, group_len, IsContentLine, IsCutBetweenCharacters, IsFirstColon, BeginsWithParameters};

/// Where the name of a content line stands in it, and where its value begins, in bytes.
#[derive(Clone, Copy, Debug, PartialEq, Eq)]
pub struct LineParts {
    /// Where the name begins, behind the group and its dot if there is one.
    pub name_from: usize,
    /// Where the name ends.
    pub name_to: usize,
    /// Where the value begins, behind the first `:` outside of double quotes.
    pub value_from: usize,
}

/// The parts of a line; none where it is no content line.
pub fn parts(line: &str) -> Option<LineParts>
    ensures parts { MatchOption result ((parts : Places) → ¬ (IsContentLine line.now parts)) (IsContentLine line.now) }
    ensures characters { IfSome result (IsCutBetweenCharacters line.now) }
{
    parts_of(line.as_bytes())
}

// The parts of a line's bytes.
fn parts_of(line: &[u8]) -> Option<LineParts>
    ensures { MatchOption result ((parts : Places) → ¬ (IsContentLine line.now parts)) (IsContentLine line.now) }
{
    let (name_from, name_len) = name_at(line);
    let name_to = name_from + name_len;
    if name_len == 0 {
        return None;
    }
    let Some(parameters) = parameters_len(&line[name_to..]) else {
        return None;
    };
    Some(LineParts {
        name_from,
        name_to,
        value_from: name_to + parameters + 1,
    })
}

// Where the name stands that a line begins with, behind the group and its dot if there is one, and how long it is.
fn name_at(line: &[u8]) -> (usize, usize)
    ensures from { result.0 ≡ group_len line.now }
    ensures len { result.1 ≡ prefix_len is_of_word (drop result.0 line.now) }
{
    let word = word_len(line);
    match line.get(word) {
        Some(b'.') if word > 0 => (word + 1, word_len(&line[word + 1..])),
        _ => (0, word),
    }
}

// How many letters, digits and `-` some bytes begin with.
fn word_len(bytes: &[u8]) -> usize
    ensures { result ≡ prefix_len is_of_word bytes.now }
{
    for place in 0..bytes.len() {
        if !is_of_word(bytes[place]) {
            return place;
        }
    }
    bytes.len()
}

fn is_of_word(byte: u8) -> bool
    ensures { result ≡ is_of_word byte }
{
    byte.is_ascii_alphanumeric() || byte == b'-'
}

// How long the parameters are that some bytes begin with, before the `:`.
fn parameters_len(bytes: &[u8]) -> Option<usize>
    ensures { MatchOption result ((count : ℕ) → ¬ (BeginsWithParameters bytes.now count)) (BeginsWithParameters bytes.now) }
{
    match bytes.first() {
        Some(b':') => Some(0),
        Some(b';') => first_colon(bytes),
        _ => None,
    }
}

// Where the first `:` outside of double quotes stands.
fn first_colon(bytes: &[u8]) -> Option<usize>
    ensures { MatchOption result ((at : ℕ) → ¬ (IsFirstColon bytes.now at)) (IsFirstColon bytes.now) }
{
    let mut quoted = false;
    for place in 0..bytes.len() {
        if is_end(bytes[place], quoted) {
            return Some(place);
        }
        quoted = is_quoted_behind(bytes[place], quoted);
    }
    None
}

// Whether a byte is a `:` outside of double quotes.
fn is_end(byte: u8, quoted: bool) -> bool
    ensures { result ≡ ((byte == colon) && not quoted) }
{
    byte == b':' && !quoted
}

// Whether what stands behind a byte is inside of double quotes.
fn is_quoted_behind(byte: u8, quoted: bool) -> bool
    ensures { result ≡ cond (byte == 34) (not quoted) quoted }
{
    if byte == b'"' { !quoted } else { quoted }
}
