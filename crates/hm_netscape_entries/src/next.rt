//! Reading a folder, an entry after the other.
ghost use Rattle.std.specs.Prelude.{◌≡◌, ◌<◌, ◌≤◌, ◌∷◌, ◌++◌, [], length, true, false, ℕ, List, Option, IfSome, MatchOption, IsUtf8};
ghost use Rattle.hm_marks_tokens.specs.Symbols as symbols;
ghost use Rattle.hm_marks_tokens.specs.Symbols.{Symbol as SeenSymbol, words_of, is_titled_behind, HasSymbols};
ghost use Rattle.hm_marks_tokens.specs.Grammar.{Contents, note_symbols, contents_symbols, IsListOf};
ghost use Rattle.hm_netscape_entries.specs.Next.{a_link, a_folder, note_seen, next_seen, IsLeft, Begins, IsNoText, IsBehindNote, IsInFolder, IsList, IsUtf8Note, IsUtf8Next};

use hm_marks_tokens::{Symbol, next_symbol};

/// What stands next in a folder. Links and folders have the bytes of their attributes and of their titles, and a note where
/// there is one.
#[derive(Clone, Copy, Debug)]
pub enum Next<'a> {
    /// The end of the folder.
    End,
    /// A link.
    Link(&'a [u8], &'a [u8], Option<&'a [u8]>),
    /// The beginning of a folder in this one, up to what stands in it.
    Folder(&'a [u8], &'a [u8], Option<&'a [u8]>),
    /// A separator, by the bytes of its attributes.
    Separator(&'a [u8]),
}

/// What stands next in a folder, and what stands behind it: behind the beginning of a folder in it, what stands in that one.
pub fn next_entry(bytes: &[u8]) -> (Next<'_>, &[u8])
    requires { IsInFolder bytes.now }
    ensures next { (c : Contents) (more : List SeenSymbol) (rest : List ℕ) → IsLeft bytes.now c more rest → Begins result.1.now more rest c (next_seen result.0) }
    ensures utf8 { IsUtf8 bytes.now → IsUtf8Next (next_seen result.0) × IsUtf8 result.1.now }
    ensures shorter { length result.1.now < length bytes.now }
{
    match entry_at(bytes) {
        Some(found) => found,
        None => unreachable!(),
    }
}

/// What stands behind the tag that begins a list: what stands in this.
pub fn list_inside(bytes: &[u8]) -> &[u8]
    requires { IsList bytes.now }
    ensures left { (c : Contents) (rest : List ℕ) → IsListOf bytes.now c rest → IsLeft result.now c [] rest }
    ensures utf8 { IsUtf8 bytes.now → IsUtf8 result.now }
{
    match next_symbol(bytes, false) {
        Some((_, rest)) => rest,
        None => unreachable!(),
    }
}

// What stands next in a folder, or none where nothing does that may.
fn entry_at(bytes: &[u8]) -> Option<(Next<'_>, &[u8])>
    ensures next { (c : Contents) (more : List SeenSymbol) (rest : List ℕ) → IsLeft bytes.now c more rest → MatchOption result ⊥ (λ found. Begins found.1.now more rest c (next_seen found.0)) }
    ensures utf8 { IsUtf8 bytes.now → IfSome result (λ found. IsUtf8Next (next_seen found.0) × IsUtf8 found.1.now) }
    ensures shorter { IfSome result (λ found. length found.1.now < length bytes.now) }
{
    let (symbol, rest) = next_symbol(bytes, false)?;
    match symbol {
        Symbol::ListEnd => Some((Next::End, rest)),
        Symbol::Rule(attributes) => Some((Next::Separator(attributes), rest)),
        Symbol::Entry => begun_at(rest),
        _ => None,
    }
}

// The same behind `<DT>`: a link or a folder.
fn begun_at(bytes: &[u8]) -> Option<(Next<'_>, &[u8])>
    ensures next { (c : Contents) (more ms : List SeenSymbol) (rest : List ℕ) → contents_symbols c ++ symbols.list_end ∷ more ≡ symbols.entry ∷ ms → HasSymbols false bytes.now ms rest → MatchOption result ⊥ (λ found. Begins found.1.now more rest c (next_seen found.0)) }
    ensures utf8 { IsUtf8 bytes.now → IfSome result (λ found. IsUtf8Next (next_seen found.0) × IsUtf8 found.1.now) }
    ensures shorter { IfSome result (λ found. length found.1.now < length bytes.now) }
{
    let (symbol, rest) = next_symbol(bytes, false)?;
    match symbol {
        Symbol::Link(attributes) => link_at(attributes, rest),
        Symbol::Heading(attributes) => folder_at(attributes, rest),
        _ => None,
    }
}

// A link, behind its `<A>`.
fn link_at<'a>(attributes: &'a [u8], bytes: &'a [u8]) -> Option<(Next<'a>, &'a [u8])>
    ensures next { (title : List ℕ) (note : Option (List ℕ)) (m : SeenSymbol) (more : List SeenSymbol) (rest : List ℕ) → IsBehindNote m → HasSymbols true bytes.now (words_of title ++ symbols.link_end ∷ (note_symbols note ++ m ∷ more)) rest → MatchOption result ⊥ (λ found. (next_seen found.0 ≡ a_link (record { attributes = attributes.now; title = title; note = note })) × HasSymbols false found.1.now (m ∷ more) rest) }
    ensures utf8 { IsUtf8 attributes.now → IsUtf8 bytes.now → IfSome result (λ found. IsUtf8Next (next_seen found.0) × IsUtf8 found.1.now) }
    ensures shorter { IfSome result (λ found. length found.1.now < length bytes.now) }
{
    let (title, rest) = title_at(bytes)?;
    let (note, rest) = note_at(rest);
    Some((Next::Link(attributes, title, note), rest))
}

// A folder, behind its `<H3>`.
fn folder_at<'a>(attributes: &'a [u8], bytes: &'a [u8]) -> Option<(Next<'a>, &'a [u8])>
    ensures next { (title : List ℕ) (note : Option (List ℕ)) (more : List SeenSymbol) (rest : List ℕ) → HasSymbols true bytes.now (words_of title ++ symbols.heading_end ∷ (note_symbols note ++ symbols.list ∷ more)) rest → MatchOption result ⊥ (λ found. (next_seen found.0 ≡ a_folder (record { attributes = attributes.now; title = title; note = note })) × HasSymbols false found.1.now more rest) }
    ensures utf8 { IsUtf8 attributes.now → IsUtf8 bytes.now → IfSome result (λ found. IsUtf8Next (next_seen found.0) × IsUtf8 found.1.now) }
    ensures shorter { IfSome result (λ found. length found.1.now < length bytes.now) }
{
    let (title, rest) = title_at(bytes)?;
    let (note, rest) = note_at(rest);
    let (_, rest) = next_symbol(rest, false)?;
    Some((Next::Folder(attributes, title, note), rest))
}

// The title behind an `<A>` or `<H3>`, which may be empty, and what stands behind the tag that ends it.
fn title_at(bytes: &[u8]) -> Option<(&[u8], &[u8])>
    ensures title { (title : List ℕ) (m : SeenSymbol) (more : List SeenSymbol) (rest : List ℕ) → is_titled_behind true m ≡ false → HasSymbols true bytes.now (words_of title ++ m ∷ more) rest → MatchOption result ⊥ (λ found. (found.0.now ≡ title) × HasSymbols false found.1.now more rest) }
    ensures utf8 { IsUtf8 bytes.now → IfSome result (λ found. IsUtf8 found.0.now × IsUtf8 found.1.now) }
    ensures shorter { IfSome result (λ found. length found.1.now < length bytes.now) }
{
    let (symbol, rest) = next_symbol(bytes, true)?;
    match symbol {
        Symbol::Words(title) => {
            let (_, rest) = next_symbol(rest, true)?;
            Some((title, rest))
        }
        _ => Some((b"", rest)),
    }
}

// The note that stands next, if there is one, and what stands behind it.
fn note_at(bytes: &[u8]) -> (Option<&[u8]>, &[u8])
    ensures note { (note : Option (List ℕ)) (m : SeenSymbol) (more : List SeenSymbol) (rest : List ℕ) → IsBehindNote m → HasSymbols false bytes.now (note_symbols note ++ m ∷ more) rest → (note_seen result.0 ≡ note) × HasSymbols false result.1.now (m ∷ more) rest }
    ensures utf8 { IsUtf8 bytes.now → IsUtf8Note (note_seen result.0) × IsUtf8 result.1.now }
    ensures shorter { length result.1.now ≤ length bytes.now }
{
    let Some((symbol, rest)) = next_symbol(bytes, false) else {
        return (None, bytes);
    };
    match symbol {
        Symbol::Note => {
            let (words, rest) = words_at(rest);
            (Some(words), rest)
        }
        _ => (None, bytes),
    }
}

// The text that stands next, which may be empty, and what stands behind it.
fn words_at(bytes: &[u8]) -> (&[u8], &[u8])
    ensures words { (words : List ℕ) (m : SeenSymbol) (more : List SeenSymbol) (rest : List ℕ) → IsNoText m → HasSymbols false bytes.now (words_of words ++ m ∷ more) rest → (result.0.now ≡ words) × HasSymbols false result.1.now (m ∷ more) rest }
    ensures utf8 { IsUtf8 bytes.now → IsUtf8 result.0.now × IsUtf8 result.1.now }
    ensures shorter { length result.1.now ≤ length bytes.now }
{
    let Some((symbol, rest)) = next_symbol(bytes, false) else {
        return (b"", bytes);
    };
    match symbol {
        Symbol::Words(words) => (words, rest),
        _ => (b"", bytes),
    }
}
