//! How deep folders lie one within another.
ghost use Rattle.std.specs.Prelude.{◌≡◌, ◌<◌, ◌+◌, ◌&&◌, not, length, false, ℕ, List, IsUtf8};
ghost use Rattle.hm_marks_tokens.specs.Symbols.{Symbol as SeenSymbol, HasSymbols};
ghost use Rattle.hm_marks_tokens.specs.Grammar.{Contents};
ghost use Rattle.hm_netscape_entries.specs.Next.{IsLeft, IsInFolder};
ghost use Rattle.hm_netscape_entries.specs.Toolbars.{is_toolbar};
ghost use Rattle.hm_marks_schema.specs.Nesting.{nesting};
ghost use Rattle.hm_netscape_files.specs.Opened as opened;

use hm_netscape_entries::{Next, is_toolbar, next_entry};

/// How many folders lie one within another in the bookmarks bar or beside it, of what stands in the outermost folder.
pub fn folders_within(bytes: &[u8]) -> usize
    requires { IsInFolder bytes.now }
    ensures { (c : Contents) (more : List SeenSymbol) (rest : List ℕ) → IsLeft bytes.now c more rest → result ≡ opened.folders_within c }
{
    let mut rest = bytes;
    let mut deepest: usize = 0;
    let mut found = false;
    loop {
        let (next, behind) = next_entry(rest);
        rest = behind;
        match next {
            Next::End => return deepest,
            Next::Folder(attributes, _, _) => {
                let (inside, behind) = nesting_in(rest);
                rest = behind;
                if is_bar(found, attributes) {
                    found = true;
                    deepest = deepest.max(inside);
                } else {
                    deepest = deepest.max(inside + 1);
                }
            }
            _ => {}
        }
    }
}

// Whether a folder is the bookmarks bar, where that was found before or wasn't.
pub(crate) fn is_bar(found: bool, attributes: &[u8]) -> bool
    ensures { result ≡ (not found && is_toolbar attributes.now) }
{
    !found && is_toolbar(attributes)
}

/// How many folders lie one within another in a folder, and what stands behind its end. It isn't recursive, since they may be as
/// many as a file has room for.
pub fn nesting_in(bytes: &[u8]) -> (usize, &[u8])
    requires { IsInFolder bytes.now }
    ensures nesting { (c : Contents) (more : List SeenSymbol) (rest : List ℕ) → IsLeft bytes.now c more rest → (result.0 ≡ nesting c) × HasSymbols false result.1.now more rest }
    ensures utf8 { IsUtf8 bytes.now → IsUtf8 result.1.now }
    ensures within { result.0 + length result.1.now < length bytes.now }
{
    let mut rest = bytes;
    let mut within: usize = 0;
    let mut deepest: usize = 0;
    loop {
        let (next, behind) = next_entry(rest);
        rest = behind;
        match next {
            Next::End if within == 0 => return (deepest, rest),
            Next::End => within -= 1,
            Next::Folder(_, _, _) => {
                within += 1;
                deepest = deepest.max(within);
            }
            _ => {}
        }
    }
}
