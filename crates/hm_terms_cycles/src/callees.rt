//! Which definitions a lens calls.
ghost use Rattle.std.specs.Prelude.{◌≡◌, IfOk, OnOk, T, length};
ghost use Rattle.std.specs.FinMap.{is_sorted};
ghost use Rattle.hm_tree.specs.Names.{name_cmp};
ghost use Rattle.hm_terms.specs.Lenses.{call};
ghost use Rattle.hm_terms.specs.Programs.{lens_of};
ghost use Rattle.hm_terms_cycles.specs.Callees.{AreBelow, IsCallIn, AreCallees};
ghost use Rattle.hm_terms_cycles.specs.CallSets.{IsSet, Adds};

use crate::call::Call;
use crate::call_set::CallSet;
use crate::places::add_name;
use hm_terms::{Definition, Term};
use hm_tree::{Memory, Name, place_of};
use std::alloc::Global;

/// The calls of the body of each definition.
pub fn callees(
    alloc: Global,
    definitions: &[Definition],
    places: &[(Name, usize)],
) -> Result<Vec<Vec<Call>>, Memory>
    requires sorted { T (is_sorted name_cmp places.now) }
    requires known { AreBelow (length definitions.now) places.now }
    ensures { IfOk result (λ callees. AreCallees definitions.now places.now callees.items) }
{
    let mut callees = Vec::with_capacity(alloc, definitions.len())?;
    for definition in definitions {
        let mut set = CallSet::new(alloc, definitions.len())?;
        add_calls(alloc, &mut set, places, false, false, &definition.body)?;
        callees.push(set.calls)?;
    }
    Ok(callees)
}

// Adds the calls of a lens that stands inside a sequence or not, and inside a lens on children or items or not.
fn add_calls(
    alloc: Global,
    set: &mut CallSet,
    places: &[(Name, usize)],
    sequence: bool,
    children: bool,
    term: &Term,
) -> Result<(), Memory>
    requires set { IsSet set.old }
    requires sorted { T (is_sorted name_cmp places.now) }
    requires known { AreBelow (length set.old.marks.items) places.now }
    ensures set { OnOk result (IsSet set.new) }
    ensures adds { OnOk result (Adds (IsCallIn places.now sequence children (lens_of term.now)) set.old.calls.items set.new.calls.items) }
    ensures count { length set.new.marks.items ≡ length set.old.marks.items }
{
    match term {
        Term::Id => {}
        Term::Const { .. } => {}
        Term::Hoist(_) => {}
        Term::Plunge(_) => {}
        Term::Copy(_, _) => {}
        Term::Merge(_, _) => {}
        Term::Text(_) => {}
        Term::Call(name) => add_call(set, places, sequence, children, name)?,
        Term::Map(inner) => add_calls(alloc, set, places, sequence, true, inner)?,
        Term::List(inner) => add_calls(alloc, set, places, sequence, true, inner)?,
        Term::Each(terms) => {
            let mut names = Vec::new(alloc);
            for (i, named) in terms.iter().enumerate() {
                // The first lens of a name counts.
                if add_name(&mut names, &named.0, i)? {
                    add_calls(alloc, set, places, sequence, true, &named.1)?;
                }
            }
        }
        Term::Seq(first, second) => {
            add_calls(alloc, set, places, true, children, first)?;
            add_calls(alloc, set, places, true, children, second)?;
        }
        Term::Fork {
            inside,
            outside,
            ..
        } => {
            add_calls(alloc, set, places, sequence, children, inside)?;
            add_calls(alloc, set, places, sequence, children, outside)?;
        }
        Term::ByConcrete { yes, no, .. } => {
            add_calls(alloc, set, places, sequence, children, yes)?;
            add_calls(alloc, set, places, sequence, children, no)?;
        }
        Term::ByView { yes, no, .. } => {
            add_calls(alloc, set, places, sequence, children, yes)?;
            add_calls(alloc, set, places, sequence, children, no)?;
        }
    }
    Ok(())
}

// Adds a call, if it is of a definition.
fn add_call(
    set: &mut CallSet,
    places: &[(Name, usize)],
    sequence: bool,
    children: bool,
    name: &Name,
) -> Result<(), Memory>
    requires set { IsSet set.old }
    requires sorted { T (is_sorted name_cmp places.now) }
    requires known { AreBelow (length set.old.marks.items) places.now }
    ensures set { OnOk result (IsSet set.new) }
    ensures adds { OnOk result (Adds (IsCallIn places.now sequence children (call name.now)) set.old.calls.items set.new.calls.items) }
    ensures count { length set.new.marks.items ≡ length set.old.marks.items }
{
    if let Ok(at) = place_of(places, name) {
        set.add(Call {
            place: places[at].1,
            sequence,
            children,
        })?;
    }
    Ok(())
}
