//! What stands behind the keywords of lenses without lenses inside.
ghost use Rattle.std.specs.Prelude.{IfOk};
ghost use Rattle.hm_focal_terms.specs.declared.keyword.Keyword.TheVariants.{Const as ConstWord, Hoist as HoistWord, Plunge as PlungeWord, Copy as CopyWord, Merge as MergeWord, Text as TextWord, Call as CallWord, Filter as FilterWord, Prune as PruneWord, Focus as FocusWord, Add as AddWord, Rename as RenameWord};
ghost use Rattle.hm_focal_terms.specs.TermText.{IsForm};
ghost use Rattle.hm_focal_terms.specs.Reading.{IsTermFound};

use crate::argument::{read_one, read_one_word, read_two};
use crate::derived;
use hm_terms::Term;
use hm_tree::{DEEPEST, Memory, Name, NameSet, Tree};
use std::alloc::Global;

pub fn read_const<'a>(alloc: Global, text: &'a [u8]) -> Result<Option<(Term, &'a [u8])>, Memory>
    ensures { IfOk result (IsTermFound (IsForm ConstWord) text.now) }
{
    match read_two::<Tree, Tree>(alloc, text)? {
        Some((tree, default, rest)) => Ok(Some((Term::Const { tree, default }, rest))),
        None => Ok(None),
    }
}

pub fn read_hoist<'a>(alloc: Global, text: &'a [u8]) -> Result<Option<(Term, &'a [u8])>, Memory>
    ensures { IfOk result (IsTermFound (IsForm HoistWord) text.now) }
{
    match read_one::<Name>(alloc, text)? {
        Some((name, rest)) => Ok(Some((Term::Hoist(name), rest))),
        None => Ok(None),
    }
}

pub fn read_plunge<'a>(alloc: Global, text: &'a [u8]) -> Result<Option<(Term, &'a [u8])>, Memory>
    ensures { IfOk result (IsTermFound (IsForm PlungeWord) text.now) }
{
    match read_one::<Name>(alloc, text)? {
        Some((name, rest)) => Ok(Some((Term::Plunge(name), rest))),
        None => Ok(None),
    }
}

pub fn read_copy<'a>(alloc: Global, text: &'a [u8]) -> Result<Option<(Term, &'a [u8])>, Memory>
    ensures { IfOk result (IsTermFound (IsForm CopyWord) text.now) }
{
    match read_two::<Name, Name>(alloc, text)? {
        Some((name, twin, rest)) => Ok(Some((Term::Copy(name, twin), rest))),
        None => Ok(None),
    }
}

pub fn read_merge<'a>(alloc: Global, text: &'a [u8]) -> Result<Option<(Term, &'a [u8])>, Memory>
    ensures { IfOk result (IsTermFound (IsForm MergeWord) text.now) }
{
    match read_two::<Name, Name>(alloc, text)? {
        Some((name, twin, rest)) => Ok(Some((Term::Merge(name, twin), rest))),
        None => Ok(None),
    }
}

pub fn read_text<'a>(alloc: Global, text: &'a [u8]) -> Result<Option<(Term, &'a [u8])>, Memory>
    ensures { IfOk result (IsTermFound (IsForm TextWord) text.now) }
{
    match read_one_word(alloc, text)? {
        Some((word, rest)) => Ok(Some((Term::Text(word), rest))),
        None => Ok(None),
    }
}

pub fn read_call<'a>(alloc: Global, text: &'a [u8]) -> Result<Option<(Term, &'a [u8])>, Memory>
    ensures { IfOk result (IsTermFound (IsForm CallWord) text.now) }
{
    match read_one_word(alloc, text)? {
        Some((word, rest)) => Ok(Some((Term::Call(word), rest))),
        None => Ok(None),
    }
}

pub fn read_filter<'a>(alloc: Global, text: &'a [u8]) -> Result<Option<(Term, &'a [u8])>, Memory>
    ensures { IfOk result (IsTermFound (IsForm FilterWord) text.now) }
{
    match read_two::<NameSet, Tree>(alloc, text)? {
        Some((names, default, rest)) => Ok(Some((derived::filter(alloc, names, default)?, rest))),
        None => Ok(None),
    }
}

pub fn read_prune<'a>(alloc: Global, text: &'a [u8]) -> Result<Option<(Term, &'a [u8])>, Memory>
    ensures { IfOk result (IsTermFound (IsForm PruneWord) text.now) }
{
    let Some((name, child, rest)) = read_two::<Name, Tree>(alloc, text)? else {
        return Ok(None);
    };
    let default = derived::under_name(alloc, &name, child)?;
    if default.depth() > DEEPEST {
        return Ok(None);
    }
    Ok(Some((derived::prune(alloc, &name, default)?, rest)))
}

pub fn read_focus<'a>(alloc: Global, text: &'a [u8]) -> Result<Option<(Term, &'a [u8])>, Memory>
    ensures { IfOk result (IsTermFound (IsForm FocusWord) text.now) }
{
    match read_two::<Name, Tree>(alloc, text)? {
        Some((name, default, rest)) => Ok(Some((derived::focus(alloc, name, default)?, rest))),
        None => Ok(None),
    }
}

pub fn read_add<'a>(alloc: Global, text: &'a [u8]) -> Result<Option<(Term, &'a [u8])>, Memory>
    ensures { IfOk result (IsTermFound (IsForm AddWord) text.now) }
{
    match read_two::<Name, Tree>(alloc, text)? {
        Some((name, tree, rest)) => Ok(Some((derived::add(alloc, name, tree)?, rest))),
        None => Ok(None),
    }
}

pub fn read_rename<'a>(alloc: Global, text: &'a [u8]) -> Result<Option<(Term, &'a [u8])>, Memory>
    ensures { IfOk result (IsTermFound (IsForm RenameWord) text.now) }
{
    match read_two::<Name, Name>(alloc, text)? {
        Some((name, shown, rest)) => Ok(Some((derived::rename(alloc, name, shown)?, rest))),
        None => Ok(None),
    }
}
