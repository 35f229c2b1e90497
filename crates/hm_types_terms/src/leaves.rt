//! The views of lenses that have no lenses inside.
ghost use Rattle.std.specs.Prelude.{◌≡◌, IfOk, IfErr};
ghost use Rattle.hm_terms.specs.Lenses.{constant as constant_lens, hoist as hoist_lens, plunge as plunge_lens, copy as copy_lens, merge, text as text_lens, call};
ghost use Rattle.hm_types_table.specs.Tables.{AreFormed, Extends};
ghost use Rattle.hm_types_terms.specs.Courses.{scope_of, IsStart, IsView, IsAt};
ghost use Rattle.hm_types_terms.specs.Told.{IsTold};

use crate::course::Course;
use crate::fault::TypeFault;
use crate::texts::classes_named;
use crate::unmet::unmet;
use hm_schema::NodeId;
use hm_tree::{Memory, Name, Tree, place_of};
use hm_types_table::{Table, member, same};
use hm_types_views::{copied, exactly, hidden, hoisted, plunged, valued};

/// The nodes that have exactly a tree, where the default is a member of the source.
pub fn constant(
    course: &Course,
    table: &mut Table,
    tree: &Tree,
    default: &Tree,
    number: usize,
    at: NodeId,
) -> Result<NodeId, TypeFault>
    requires { IsStart table.old (scope_of course.now) at }
    ensures formed { AreFormed table.new }
    ensures extends { Extends table.old table.new }
    ensures view { IfOk result (IsView (scope_of course.now) table.old table.new (constant_lens tree.now default.now) at) }
    ensures fault { IfErr result (IsTold course.now.definition (IsAt (scope_of course.now) table.old (constant_lens tree.now default.now) number at)) }
{
    if !member(table, at, default) {
        return Err(unmet(course, number, 3));
    }
    Ok(exactly(course.alloc, table, tree)?)
}

/// What the one name of the source leads to.
pub fn hoist(
    course: &Course,
    table: &Table,
    name: &Name,
    number: usize,
    at: NodeId,
) -> Result<NodeId, TypeFault>
    requires { IsStart table.now (scope_of course.now) at }
    ensures view { IfOk result (IsView (scope_of course.now) table.now table.now (hoist_lens name.now) at) }
    ensures fault { IfErr result (IsTold course.now.definition (IsAt (scope_of course.now) table.now (hoist_lens name.now) number at)) }
{
    match hoisted(table, at, name) {
        Some(view) => Ok(view),
        None => Err(unmet(course, number, 4)),
    }
}

/// The node of one name above the source.
pub fn plunge(course: &Course, table: &mut Table, name: &Name, at: NodeId) -> Result<NodeId, Memory>
    requires { IsStart table.old (scope_of course.now) at }
    ensures formed { AreFormed table.new }
    ensures extends { Extends table.old table.new }
    ensures view { IfOk result (IsView (scope_of course.now) table.old table.new (plunge_lens name.now) at) }
{
    Ok(plunged(course.alloc, table, at, name)?)
}

/// The source with the child of one name under a second one too.
pub fn copy(
    course: &Course,
    table: &mut Table,
    first: &Name,
    second: &Name,
    number: usize,
    at: NodeId,
) -> Result<NodeId, TypeFault>
    requires { IsStart table.old (scope_of course.now) at }
    ensures formed { AreFormed table.new }
    ensures extends { Extends table.old table.new }
    ensures view { IfOk result (IsView (scope_of course.now) table.old table.new (copy_lens first.now second.now) at) }
    ensures fault { IfErr result (IsTold course.now.definition (IsAt (scope_of course.now) table.old (copy_lens first.now second.now) number at)) }
{
    match copied(course.alloc, table, at, first, second)? {
        Some(view) => Ok(view),
        None => Err(unmet(course, number, 10)),
    }
}

/// The source without the second of two names that lead to the same.
pub fn hide(
    course: &Course,
    table: &mut Table,
    first: &Name,
    second: &Name,
    number: usize,
    at: NodeId,
) -> Result<NodeId, TypeFault>
    requires { IsStart table.old (scope_of course.now) at }
    ensures formed { AreFormed table.new }
    ensures extends { Extends table.old table.new }
    ensures view { IfOk result (IsView (scope_of course.now) table.old table.new (merge first.now second.now) at) }
    ensures fault { IfErr result (IsTold course.now.definition (IsAt (scope_of course.now) table.old (merge first.now second.now) number at)) }
{
    match hidden(course.alloc, table, at, first, second)? {
        Some(view) => Ok(view),
        None => Err(unmet(course, number, 11)),
    }
}

/// The source with values of the class that a text lens shows, where it has those of the class that the lens reads.
pub fn text(
    course: &Course,
    table: &mut Table,
    name: &Name,
    number: usize,
    at: NodeId,
) -> Result<NodeId, TypeFault>
    requires { IsStart table.old (scope_of course.now) at }
    ensures formed { AreFormed table.new }
    ensures extends { Extends table.old table.new }
    ensures view { IfOk result (IsView (scope_of course.now) table.old table.new (text_lens name.now) at) }
    ensures fault { IfErr result (IsTold course.now.definition (IsAt (scope_of course.now) table.old (text_lens name.now) number at)) }
{
    let (from, into) = match classes_named(course.texts, name) {
        Some(classes) => classes,
        None => return Err(unmet(course, number, 14)),
    };
    match valued(course.alloc, table, at, from, into)? {
        Some(view) => Ok(view),
        None => Err(unmet(course, number, 14)),
    }
}

/// The view that a definition is declared with, where the source is the same as its own.
pub fn called(
    course: &Course,
    table: &Table,
    name: &Name,
    number: usize,
    at: NodeId,
) -> Result<NodeId, TypeFault>
    requires { IsStart table.now (scope_of course.now) at }
    ensures view { IfOk result (IsView (scope_of course.now) table.now table.now (call name.now) at) }
    ensures fault { IfErr result (IsTold course.now.definition (IsAt (scope_of course.now) table.now (call name.now) number at)) }
{
    let place = match place_of(course.declared, name) {
        Ok(place) => place,
        Err(_) => return Err(unmet(course, number, 15)),
    };
    let types = course.declared[place].1;
    if !same(table, at, types.0) {
        return Err(unmet(course, number, 15));
    }
    Ok(types.1)
}
