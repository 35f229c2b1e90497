//! Whole terms, and definitions.
ghost use Rattle.std.specs.Prelude.{◌≡◌, ◌<◌, IfOk, OnOk, IfErr, length};
ghost use Rattle.hm_terms.specs.Programs.{lens_of};
ghost use Rattle.hm_types_rules.specs.Texts.{HasTexts};
ghost use Rattle.hm_types_table.specs.Tables.{AreFormed, Extends};
ghost use Rattle.hm_types_terms.specs.Told.{IsTold};
ghost use Rattle.hm_types_terms.specs.Courses.{scoped, IsStart, IsView, IsAt};
ghost use Rattle.hm_types_terms.specs.Bodies.{HasDistinctRows, IsTypedBody, IsMistypedBody};

use crate::alike::alike;
use crate::course::Course;
use crate::fault::TypeFault;
use crate::memo::Memo;
use crate::part::parts;
use crate::texts::TextType;
use crate::typing::view;
use hm_schema::NodeId;
use hm_terms::Term;
use hm_tree::Name;
use hm_types_table::{Table, same};
use std::alloc::Global;

/// The node that the term of a definition of this number goes to from a node.
pub fn view_of(
    alloc: Global,
    table: &mut Table,
    texts: &[TextType],
    declared: &[(Name, (NodeId, NodeId))],
    definition: usize,
    term: &Term,
    at: NodeId,
) -> Result<NodeId, TypeFault>
    requires start { IsStart table.old (scoped texts.now declared.now) at }
    requires rows { HasDistinctRows (lens_of term.now) }
    ensures formed { AreFormed table.new }
    ensures extends { Extends table.old table.new }
    ensures view { IfOk result (IsView (scoped texts.now declared.now) table.old table.new (lens_of term.now) at) }
    ensures texts { OnOk result (HasTexts (lens_of term.now)) }
    ensures fault { IfErr result (IsTold definition (IsAt (scoped texts.now declared.now) table.old (lens_of term.now) 1 at)) }
{
    let parts = parts(alloc, term)?;
    let alike = alike(alloc, term)?;
    let course = Course {
        alloc,
        definition,
        root: term,
        parts: &parts,
        alike: &alike,
        texts,
        declared,
    };
    let mut memo = Memo::new(alloc);
    Ok(view(&course, table, &mut memo, term, 1, at)?)
}

/// Checks that a body goes from its source to what is the same as its view.
pub fn check_body(
    alloc: Global,
    table: &mut Table,
    texts: &[TextType],
    declared: &[(Name, (NodeId, NodeId))],
    definition: usize,
    body: &Term,
    types: (NodeId, NodeId),
) -> Result<(), TypeFault>
    requires start { IsStart table.old (scoped texts.now declared.now) types.0 }
    requires view { types.1.place < length table.old }
    requires rows { HasDistinctRows (lens_of body.now) }
    ensures formed { AreFormed table.new }
    ensures extends { Extends table.old table.new }
    ensures typed { OnOk result (IsTypedBody (scoped texts.now declared.now) table.old (lens_of body.now) types.0 types.1) }
    ensures texts { OnOk result (HasTexts (lens_of body.now)) }
    ensures fault { IfErr result (IsTold definition (IsMistypedBody (scoped texts.now declared.now) table.old (lens_of body.now) types.0 types.1)) }
{
    let found = view_of(alloc, table, texts, declared, definition, body, types.0)?;
    if !same(table, found, types.1) {
        return Err(TypeFault::Mistyped {
            definition,
            term: 1,
            rule: 15,
        });
    }
    Ok(())
}
