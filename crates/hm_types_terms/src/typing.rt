//! The view of a lens at a node: a function for each kind of lens that has lenses inside.
ghost use Rattle.std.specs.Prelude.{◌≡◌, ◌↔◌, ◌<◌, ◌+◌, IsTrue, IfOk, IfErr, Some, length, slice_get};
ghost use Rattle.hm_schema.specs.Values.{NodeValue};
ghost use Rattle.hm_terms.specs.Lenses.{sequence, fork, each, among, items, on_concrete, on_view};
ghost use Rattle.hm_terms.specs.Programs.{lens_of, lenses_of};
ghost use Rattle.hm_types_forms.specs.Forms.{form, label_of};
ghost use Rattle.hm_types_rules.specs.Typing.{AreListed};
ghost use Rattle.hm_types_terms.specs.Numbers.{parts_of};
ghost use Rattle.hm_types_terms.specs.Courses.{scope_of, IsReady, IsGrown, IsView, IsAt};
ghost use Rattle.hm_types_terms.specs.Pairs.{ArePairReady, ArePairViews, IsPairAt};
ghost use Rattle.hm_types_terms.specs.Below.{IsListedBelow, IsOtherBelow, IsListedAt, IsOtherAt};
ghost use Rattle.hm_types_terms.specs.Told.{IsTold};

use crate::course::Course;
use crate::fault::TypeFault;
use crate::leaves::{called, constant, copy, hide, hoist, plunge, text};
use crate::memo::Memo;
use crate::numbers::{behind, like};
use crate::over::over;
use crate::unmet::unmet;
use hm_schema::NodeId;
use hm_terms::Term;
use hm_tree::{Class, Name, NameSet};
use hm_types_table::{
    Table, count, equal, is_plain, lets_some_in, listed, lists, other, place_of, same, targets,
};
use hm_types_views::{branched, items_of, joined, list_of, merged, parted};

/// The two lenses inside one.
#[derive(Drop)]
pub struct Terms<'a> {
    pub first: &'a Term,
    pub second: &'a Term,
}

/// The node that a lens goes to from a node. What was found before isn't looked for anew.
#[cycle(types)]
pub fn view(
    course: &Course,
    table: &mut Table,
    memo: &mut Memo,
    term: &Term,
    number: usize,
    at: NodeId,
) -> Result<NodeId, TypeFault>
    requires { IsReady course.now table.old memo.old (parts_of (lens_of term.now)) number at }
    ensures grown { IsGrown course.now table.old table.new memo.new }
    ensures view { IfOk result (IsView (scope_of course.now) table.old table.new (lens_of term.now) at) }
    ensures fault { IfErr result (IsTold course.now.definition (IsAt (scope_of course.now) table.old (lens_of term.now) number at)) }
{
    let lens = like(course, number);
    if let Some(view) = memo.recall(lens, at) {
        return Ok(view);
    }
    let view = anew(course, table, memo, term, number, at)?;
    memo.remember(lens, at, view)?;
    Ok(view)
}

#[cycle(types)]
fn anew(
    course: &Course,
    table: &mut Table,
    memo: &mut Memo,
    term: &Term,
    number: usize,
    at: NodeId,
) -> Result<NodeId, TypeFault>
    requires { IsReady course.now table.old memo.old (parts_of (lens_of term.now)) number at }
    ensures grown { IsGrown course.now table.old table.new memo.new }
    ensures view { IfOk result (IsView (scope_of course.now) table.old table.new (lens_of term.now) at) }
    ensures fault { IfErr result (IsTold course.now.definition (IsAt (scope_of course.now) table.old (lens_of term.now) number at)) }
{
    match term {
        Term::Id => Ok(at),
        Term::Const { tree, default } => constant(course, table, tree, default, number, at),
        Term::Hoist(name) => hoist(course, table, name, number, at),
        Term::Plunge(name) => Ok(plunge(course, table, name, at)?),
        Term::Copy(first, second) => copy(course, table, first, second, number, at),
        Term::Merge(first, second) => hide(course, table, first, second, number, at),
        Term::Text(name) => text(course, table, name, number, at),
        Term::Call(name) => called(course, table, name, number, at),
        Term::Seq(first, second) => in_sequence(course, table, memo, first, second, number, at),
        Term::Fork {
            concrete,
            shown,
            inside,
            outside,
        } => {
            let terms = Terms {
                first: inside,
                second: outside,
            };
            in_fork(course, table, memo, concrete, shown, &terms, number, at)
        }
        Term::Map(inner) => on_each(course, table, memo, inner, number, at),
        Term::Each(rows) => on_named(course, table, memo, rows, number, at),
        Term::List(inner) => on_items(course, table, memo, inner, number, at),
        Term::ByConcrete { name, yes, no } => {
            let terms = Terms {
                first: yes,
                second: no,
            };
            by_concrete(course, table, memo, name, &terms, number, at)
        }
        Term::ByView {
            name,
            shown,
            yes,
            no,
        } => {
            let terms = Terms {
                first: yes,
                second: no,
            };
            by_view(course, table, memo, name, shown, &terms, number, at)
        }
    }
}

#[cycle(types)]
fn in_sequence(
    course: &Course,
    table: &mut Table,
    memo: &mut Memo,
    first: &Term,
    second: &Term,
    number: usize,
    at: NodeId,
) -> Result<NodeId, TypeFault>
    requires { IsReady course.now table.old memo.old (parts_of (sequence (lens_of first.now) (lens_of second.now))) number at }
    ensures grown { IsGrown course.now table.old table.new memo.new }
    ensures view { IfOk result (IsView (scope_of course.now) table.old table.new (sequence (lens_of first.now) (lens_of second.now)) at) }
    ensures fault { IfErr result (IsTold course.now.definition (IsAt (scope_of course.now) table.old (sequence (lens_of first.now) (lens_of second.now)) number at)) }
{
    let between = view(course, table, memo, first, number + 1, at)?;
    let number = behind(course, number + 1);
    Ok(view(course, table, memo, second, number, between)?)
}

// The views of the two lenses inside one, each at a node of its own.
#[cycle(types)]
fn both(
    course: &Course,
    table: &mut Table,
    memo: &mut Memo,
    terms: &Terms,
    number: usize,
    nodes: (NodeId, NodeId),
) -> Result<(NodeId, NodeId), TypeFault>
    requires { ArePairReady course.now table.old memo.old (lens_of terms.now.first.now) (lens_of terms.now.second.now) number nodes.0 nodes.1 }
    ensures grown { IsGrown course.now table.old table.new memo.new }
    ensures views { IfOk result (λ r. ArePairViews (scope_of course.now) table.old table.new (lens_of terms.now.first.now) (lens_of terms.now.second.now) nodes.0 nodes.1 r.0 r.1) }
    ensures fault { IfErr result (IsTold course.now.definition (IsPairAt (scope_of course.now) table.old (lens_of terms.now.first.now) (lens_of terms.now.second.now) number nodes.0 nodes.1)) }
{
    let first = view(course, table, memo, terms.first, number + 1, nodes.0)?;
    let number = behind(course, number + 1);
    let second = view(course, table, memo, terms.second, number, nodes.1)?;
    Ok((first, second))
}

#[cycle(types)]
fn in_fork(
    course: &Course,
    table: &mut Table,
    memo: &mut Memo,
    concrete: &NameSet,
    shown: &NameSet,
    terms: &Terms,
    number: usize,
    at: NodeId,
) -> Result<NodeId, TypeFault>
    requires { IsReady course.now table.old memo.old (parts_of (fork concrete.now shown.now (lens_of terms.now.first.now) (lens_of terms.now.second.now))) number at }
    ensures grown { IsGrown course.now table.old table.new memo.new }
    ensures view { IfOk result (IsView (scope_of course.now) table.old table.new (fork concrete.now shown.now (lens_of terms.now.first.now) (lens_of terms.now.second.now)) at) }
    ensures fault { IfErr result (IsTold course.now.definition (IsAt (scope_of course.now) table.old (fork concrete.now shown.now (lens_of terms.now.first.now) (lens_of terms.now.second.now)) number at)) }
{
    let parts = match parted(course.alloc, table, at, concrete)? {
        Some(parts) => parts,
        None => return Err(unmet(course, number, 6)),
    };
    let (one, two) = both(course, table, memo, terms, number, parts)?;
    match joined(course.alloc, table, one, two, shown)? {
        Some(view) => Ok(view),
        None => Err(unmet(course, number, 6)),
    }
}

#[cycle(types)]
fn by_concrete(
    course: &Course,
    table: &mut Table,
    memo: &mut Memo,
    name: &Name,
    terms: &Terms,
    number: usize,
    at: NodeId,
) -> Result<NodeId, TypeFault>
    requires { IsReady course.now table.old memo.old (parts_of (on_concrete name.now (lens_of terms.now.first.now) (lens_of terms.now.second.now))) number at }
    ensures grown { IsGrown course.now table.old table.new memo.new }
    ensures view { IfOk result (IsView (scope_of course.now) table.old table.new (on_concrete name.now (lens_of terms.now.first.now) (lens_of terms.now.second.now)) at) }
    ensures fault { IfErr result (IsTold course.now.definition (IsAt (scope_of course.now) table.old (on_concrete name.now (lens_of terms.now.first.now) (lens_of terms.now.second.now)) number at)) }
{
    let sides = match branched(course.alloc, table, at, name)? {
        Some(sides) => sides,
        None => return Err(unmet(course, number, 12)),
    };
    let (one, two) = both(course, table, memo, terms, number, sides)?;
    if same(table, one, two) {
        Ok(one)
    } else {
        Err(unmet(course, number, 12))
    }
}

#[cycle(types)]
fn by_view(
    course: &Course,
    table: &mut Table,
    memo: &mut Memo,
    name: &Name,
    shown: &Name,
    terms: &Terms,
    number: usize,
    at: NodeId,
) -> Result<NodeId, TypeFault>
    requires { IsReady course.now table.old memo.old (parts_of (on_view name.now shown.now (lens_of terms.now.first.now) (lens_of terms.now.second.now))) number at }
    ensures grown { IsGrown course.now table.old table.new memo.new }
    ensures view { IfOk result (IsView (scope_of course.now) table.old table.new (on_view name.now shown.now (lens_of terms.now.first.now) (lens_of terms.now.second.now)) at) }
    ensures fault { IfErr result (IsTold course.now.definition (IsAt (scope_of course.now) table.old (on_view name.now shown.now (lens_of terms.now.first.now) (lens_of terms.now.second.now)) number at)) }
{
    let sides = match branched(course.alloc, table, at, name)? {
        Some(sides) => sides,
        None => return Err(unmet(course, number, 13)),
    };
    let (one, two) = both(course, table, memo, terms, number, sides)?;
    match merged(course.alloc, table, one, two, shown)? {
        Some(view) => Ok(first_equal(table, at, view)),
        None => Err(unmet(course, number, 13)),
    }
}

#[cycle(types)]
fn on_items(
    course: &Course,
    table: &mut Table,
    memo: &mut Memo,
    inner: &Term,
    number: usize,
    at: NodeId,
) -> Result<NodeId, TypeFault>
    requires { IsReady course.now table.old memo.old (parts_of (items (lens_of inner.now))) number at }
    ensures grown { IsGrown course.now table.old table.new memo.new }
    ensures view { IfOk result (IsView (scope_of course.now) table.old table.new (items (lens_of inner.now)) at) }
    ensures fault { IfErr result (IsTold course.now.definition (IsAt (scope_of course.now) table.old (items (lens_of inner.now)) number at)) }
{
    let source = match items_of(table, at) {
        Some(source) => source,
        None => return Err(unmet(course, number, 9)),
    };
    let item = view(course, table, memo, inner, number + 1, source.first)?;
    Ok(list_of(course.alloc, table, &source, item)?)
}

#[cycle(types)]
fn on_each(
    course: &Course,
    table: &mut Table,
    memo: &mut Memo,
    inner: &Term,
    number: usize,
    at: NodeId,
) -> Result<NodeId, TypeFault>
    requires { IsReady course.now table.old memo.old (parts_of (each (lens_of inner.now))) number at }
    ensures grown { IsGrown course.now table.old table.new memo.new }
    ensures view { IfOk result (IsView (scope_of course.now) table.old table.new (each (lens_of inner.now)) at) }
    ensures fault { IfErr result (IsTold course.now.definition (IsAt (scope_of course.now) table.old (each (lens_of inner.now)) number at)) }
{
    if !is_plain(table, at) {
        return Err(unmet(course, number, 7));
    }
    let mut next = Vec::new(course.alloc);
    for place in 0..count(table, at) {
        next.push(on_listed(course, table, memo, inner, number, at, place)?)?;
    }
    let others = on_other(course, table, memo, inner, number, at)?;
    Ok(over(table, at, next, others)?)
}

// What stands below the listed name at a place then.
#[cycle(types)]
fn on_listed(
    course: &Course,
    table: &mut Table,
    memo: &mut Memo,
    inner: &Term,
    number: usize,
    at: NodeId,
    place: usize,
) -> Result<NodeId, TypeFault>
    requires ready { IsReady course.now table.old memo.old (parts_of (each (lens_of inner.now))) number at }
    requires place { (n : NodeValue) → slice_get table.old at.place ≡ Some n → place < length n.children }
    ensures grown { IsGrown course.now table.old table.new memo.new }
    ensures below { IfOk result (λ j. (n : NodeValue) → slice_get table.old at.place ≡ Some n → IsListedBelow (scope_of course.now) table.old table.new (lens_of inner.now) n place j) }
    ensures fault { IfErr result (IsTold course.now.definition (λ a. (n : NodeValue) → slice_get table.old at.place ≡ Some n → IsListedAt (scope_of course.now) table.old (lens_of inner.now) (number + 1) n place a)) }
{
    let (child, stands) = listed(table, at, place);
    if !stands {
        return Ok(child);
    }
    Ok(view(course, table, memo, inner, number + 1, child)?)
}

// What stands below all other names then.
#[cycle(types)]
fn on_other(
    course: &Course,
    table: &mut Table,
    memo: &mut Memo,
    inner: &Term,
    number: usize,
    at: NodeId,
) -> Result<Option<(Class, NodeId)>, TypeFault>
    requires ready { IsReady course.now table.old memo.old (parts_of (each (lens_of inner.now))) number at }
    ensures grown { IsGrown course.now table.old table.new memo.new }
    ensures below { IfOk result (λ o. (n : NodeValue) → slice_get table.old at.place ≡ Some n → IsOtherBelow (scope_of course.now) table.old table.new (lens_of inner.now) n o) }
    ensures fault { IfErr result (IsTold course.now.definition (λ a. (n : NodeValue) → slice_get table.old at.place ≡ Some n → IsOtherAt (scope_of course.now) table.old (lens_of inner.now) (number + 1) n a)) }
{
    let (class, child) = match other(table, at) {
        Some(other) => other,
        None => return Ok(None),
    };
    if !lets_some_in(table, at) {
        return Ok(Some((class, child)));
    }
    let view = view(course, table, memo, inner, number + 1, child)?;
    Ok(Some((class, view)))
}

#[cycle(types)]
fn on_named(
    course: &Course,
    table: &mut Table,
    memo: &mut Memo,
    rows: &[(Name, Term)],
    number: usize,
    at: NodeId,
) -> Result<NodeId, TypeFault>
    requires { IsReady course.now table.old memo.old (parts_of (among (lenses_of rows.now))) number at }
    ensures grown { IsGrown course.now table.old table.new memo.new }
    ensures view { IfOk result (IsView (scope_of course.now) table.old table.new (among (lenses_of rows.now)) at) }
    ensures fault { IfErr result (IsTold course.now.definition (IsAt (scope_of course.now) table.old (among (lenses_of rows.now)) number at)) }
{
    if !is_plain(table, at) {
        return Err(unmet(course, number, 8));
    }
    if !are_listed(table, rows, at) {
        return Err(unmet(course, number, 8));
    }
    let mut next = targets(course.alloc, table, at)?;
    let mut number = number + 1;
    for row in rows {
        let place = place_of(table, at, &row.0).unwrap();
        next[place] = view(course, table, memo, &row.1, number, next[place])?;
        number = behind(course, number);
    }
    let others = other(table, at);
    Ok(over(table, at, next, others)?)
}

// Whether each named lens is for a name that is listed.
fn are_listed(table: &Table, rows: &[(Name, Term)], at: NodeId) -> bool
    requires { at.place < length table.now }
    ensures { (n : NodeValue) → slice_get table.now at.place ≡ Some n → (IsTrue result ↔ AreListed (label_of n) (lenses_of rows.now)) }
{
    for row in rows {
        if !lists(table, at, &row.0) {
            return false;
        }
    }
    true
}

// The first of two nodes, if they are equal, else the second. So what is found at the first isn't looked for at the second.
fn first_equal(table: &Table, first: NodeId, second: NodeId) -> NodeId
    requires first { first.place < length table.now }
    requires second { second.place < length table.now }
    ensures in_range { result.place < length table.now }
    ensures form { form table.now result ≡ form table.now second }
{
    if equal(table, first, second) {
        first
    } else {
        second
    }
}
