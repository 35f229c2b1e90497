//! What is claimed to be the outcome of a reconciling: another one than it came to.

use hm_report::{Conflict, Outcome, Why};
use hm_tree::{Archive, Memory, Name, NameSet, Path, State, Tree};
use std::alloc::Global;

// A tree below a name.
fn below_a_name(alloc: Global, tree: Tree) -> Result<Tree, Memory> {
    let mut above = Tree::empty(alloc);
    above.insert(Name::from_text(alloc, "above")?, tree)?;
    Ok(above)
}

fn copies_of(alloc: Global, names: &[Name]) -> Result<Vec<Name>, Memory> {
    let mut copies = Vec::new(alloc);
    for name in names {
        copies.push(name.copy()?)?;
    }
    Ok(copies)
}

fn set_of(alloc: Global, names: &[Name]) -> Result<NameSet, Memory> {
    NameSet::from_list(copies_of(alloc, names)?)
}

fn path_of(alloc: Global, names: &[Name]) -> Result<Path, Memory> {
    let names = copies_of(alloc, names)?;
    Ok(Path { names })
}

// A text is lost at the path of these names.
fn lost_at(alloc: Global, names: &[Name]) -> Result<Why, Memory> {
    let kept = path_of(alloc, names)?;
    Ok(Why::Lost { kept })
}

// These names come to stand on both sides.
fn names_of_both(alloc: Global, names: &[Name]) -> Result<Why, Memory> {
    let left = set_of(alloc, names)?;
    match set_of(alloc, names) {
        Ok(right) => Ok(Why::Names { left, right }),
        Err(_) => Err(Memory),
    }
}

// One conflict, at the path of these names.
fn one_at(alloc: Global, names: &[Name], why: Why) -> Result<Vec<Conflict>, Memory> {
    let path = path_of(alloc, names)?;
    let mut conflicts = Vec::new(alloc);
    conflicts.push(Conflict { path, why })?;
    Ok(conflicts)
}

// Another reason than this one.
fn other_why(alloc: Global, why: &Why) -> Result<Why, Memory> {
    match why {
        Why::Earlier => names_of_both(alloc, &[]),
        Why::Lost { .. } => Ok(Why::Earlier),
        Why::Names { .. } => lost_at(alloc, &[]),
    }
}

// The last conflict, if there is one, has another reason.
fn change_reason(alloc: Global, conflicts: &mut [Conflict]) -> Result<(), Memory> {
    if let Some(last) = conflicts.last_mut() {
        last.why = other_why(alloc, &last.why)?;
    }
    Ok(())
}

// The last conflict, if there is one, tells its own path as that of what is lost.
fn change_path(alloc: Global, conflicts: &mut [Conflict]) -> Result<(), Memory> {
    if let Some(last) = conflicts.last_mut() {
        last.why = lost_at(alloc, &last.path.names)?;
    }
    Ok(())
}

// No conflict where there is one, and one at the root where there is none.
fn other_conflicts(alloc: Global, conflicts: &[Conflict]) -> Result<Vec<Conflict>, Memory> {
    if conflicts.is_empty() {
        one_at(alloc, &[], Why::Earlier)
    } else {
        Ok(Vec::new(alloc))
    }
}

// No mark at the root where there is one, and one there where there is none.
fn other_archive(alloc: Global, archive: &Archive, tree: &Tree) -> Result<Archive, Memory> {
    match archive.root() {
        State::Marked => Archive::of_tree(tree),
        _ => Ok(Archive::marked(alloc)),
    }
}

// Changes a part of an outcome; tells whether the word names one.
fn change(alloc: Global, outcome: &mut Outcome, part: &str) -> Result<bool, Memory> {
    match part {
        "archive" => outcome.archive = other_archive(alloc, &outcome.archive, &outcome.left)?,
        "left" => outcome.left = below_a_name(alloc, outcome.left.copy()?)?,
        "right" => outcome.right = below_a_name(alloc, outcome.right.copy()?)?,
        "conflicts" => outcome.conflicts = other_conflicts(alloc, &outcome.conflicts)?,
        "order" => outcome.conflicts.reverse(),
        "reason" => change_reason(alloc, &mut outcome.conflicts)?,
        "path" => change_path(alloc, &mut outcome.conflicts)?,
        _ => return Ok(false),
    }
    Ok(true)
}

// The reason that words say, if they say one.
fn why_of(alloc: Global, words: &[Name]) -> Result<Option<Why>, Memory> {
    let Some((word, names)) = words.split_first() else {
        return Ok(None);
    };
    Ok(match word.text() {
        "earlier" => Some(Why::Earlier),
        "lost" => Some(lost_at(alloc, names)?),
        "names" => Some(names_of_both(alloc, names)?),
        _ => None,
    })
}

// Makes of an outcome one in which both sides stay as they were, for the reason that words say; tells whether they say
// one.
fn stop(
    alloc: Global,
    outcome: &mut Outcome,
    left: &Tree,
    right: &Tree,
    words: &[Name],
) -> Result<bool, Memory> {
    let Some(why) = why_of(alloc, words)? else {
        return Ok(false);
    };
    outcome.conflicts = one_at(alloc, &[], why)?;
    outcome.archive = Archive::marked(alloc);
    outcome.left = left.copy()?;
    outcome.right = right.copy()?;
    Ok(true)
}

// The conflict that words tell, for its reason and at the path of the names behind it; none where there are no words. Nothing
// where they have no meaning.
fn told_conflict(alloc: Global, words: &[Name]) -> Result<Option<Vec<Conflict>>, Memory> {
    let Some((word, names)) = words.split_first() else {
        return Ok(Some(Vec::new(alloc)));
    };
    Ok(match word.text() {
        "earlier" => Some(one_at(alloc, names, Why::Earlier)?),
        "lost" => Some(one_at(alloc, names, lost_at(alloc, names)?)?),
        _ => None,
    })
}

/// Makes of an outcome one in which both sides stay as they were and the archive is this one, with the conflict that words
/// tell, if there are some. Tells whether they have a meaning; after want of memory the outcome is any.
pub fn claim_archive(
    alloc: Global,
    outcome: &mut Outcome,
    left: &Tree,
    right: &Tree,
    archive: Archive,
    words: &[Name],
) -> Result<bool, Memory> {
    let Some(conflicts) = told_conflict(alloc, words)? else {
        return Ok(false);
    };
    outcome.conflicts = conflicts;
    outcome.archive = archive;
    outcome.left = left.copy()?;
    outcome.right = right.copy()?;
    Ok(true)
}

/// Makes of an outcome the one that words claim: the same where there are none, one of which a part is changed, or behind
/// `stop` one in which both sides stay as they were. Tells whether the words have a meaning; after want of memory the
/// outcome is any.
pub fn claim(
    alloc: Global,
    outcome: &mut Outcome,
    left: &Tree,
    right: &Tree,
    words: &[Name],
) -> Result<bool, Memory> {
    match words.split_first() {
        None => Ok(true),
        Some((word, rest)) => match word.text() {
            "stop" => stop(alloc, outcome, left, right, rest),
            part => change(alloc, outcome, part),
        },
    }
}
