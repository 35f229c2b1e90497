//! Words in front of those of a run, which tell which of its calls are to fail.

use hm_outside::{MemSink, MemStore};
use hm_tree::{Memory, Name};

/// What stands behind the first two words, where they let a call fail: the load of a number of a run, its replace, which leaves the
/// bytes from before or the new ones, or its put. So many files were put into the store before. None where they are other words.
pub fn take_fault<'a>(
    words: &'a [Name],
    held: u64,
    store: &mut MemStore,
    out: &mut MemSink,
) -> Result<Option<&'a [Name]>, Memory> {
    if words.len() < 2 {
        return Ok(None);
    }
    let Ok(number) = words[1].text().parse::<u64>() else {
        return Ok(None);
    };
    match words[0].text() {
        "load" => store.fail_load(number)?,
        "replace" => store.fail_replace(held.saturating_add(number), false)?,
        "replace-new" => store.fail_replace(held.saturating_add(number), true)?,
        "put" => out.fail_put(number)?,
        _ => return Ok(None),
    }
    Ok(Some(&words[2..]))
}

/// What stands behind the word that has the same run made again; none where it is another word.
pub fn take_again(words: &[Name]) -> Option<&[Name]> {
    match words.split_first() {
        Some((word, behind)) if word.text() == "again" => Some(behind),
        _ => None,
    }
}
