//! Why the two sides couldn't be brought to agree at a path.
ghost use Rattle.std.specs.Prelude.{◌≡◌, None, IfOk};
ghost use Rattle.hm_tree.specs.States.{at_path};
ghost use Rattle.hm_outcome.specs.Trios.{given, views};
ghost use Rattle.hm_reconcile.specs.Showing.{IsContestedSomewhere, ShowsWherever};

use crate::carried::carried;
use crate::news::news_from;
use hm_report::Why;
use hm_tree::{Archive, Memory, Path, State, Tree};
use std::alloc::Global;

/// What shows why a path is contested: an earlier mark; else, where one side alone has the path, the first of its
/// news there; else the names that the two sides would come to have.
pub fn reason(
    alloc: Global,
    archive: &Archive,
    left: &Tree,
    right: &Tree,
    path: &Path,
) -> Result<Why, Memory>
    requires { IsContestedSomewhere (views (given archive.now left.now right.now)) path.now }
    ensures { IfOk result (ShowsWherever (views (given archive.now left.now right.now)) path.now) }
{
    let missing = Archive::missing(alloc);
    let here = archive_at(archive, path, &missing);
    if let State::Marked = here.root() {
        return Ok(Why::Earlier);
    }
    match (left.at(path), right.at(path)) {
        (Some(left), Some(right)) => {
            let (left, right) = carried(alloc, here, left, right)?;
            Ok(Why::Names { left, right })
        }
        (Some(tree), None) => Ok(Why::Lost {
            kept: news_from(alloc, here, tree, path)?,
        }),
        (None, Some(tree)) => Ok(Why::Lost {
            kept: news_from(alloc, here, tree, path)?,
        }),
        (None, None) => unreachable!(),
    }
}

// What stands in an archive at a path, or a missing archive.
fn archive_at<'a>(archive: &'a Archive, path: &Path, missing: &'a Archive) -> &'a Archive
    requires { missing.now ≡ None }
    ensures { result.now ≡ at_path archive.now path.now }
{
    match archive.at(path) {
        Some(found) => found,
        None => missing,
    }
}
