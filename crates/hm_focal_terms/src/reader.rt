//! Reading: a function for each form of the grammar that has terms inside.
ghost use Rattle.std.specs.Prelude.{IfOk};
ghost use Rattle.hm_focal_terms.specs.declared.keyword.Keyword.TheVariants.{Fork as ForkWord, Each as EachWord, ByConcrete as ByConcreteWord, ByView as ByViewWord};
ghost use Rattle.hm_focal_terms.specs.TermText.{IsTerm, IsPart, IsForm, BehindSign, InParentheses, TwoTerms};
ghost use Rattle.hm_focal_terms.specs.Reading.{IsTermFound, AreTermsFound};
ghost use Rattle.hm_focal_terms.specs.Reads.{IsTermRead};

use crate::argument::read_behind;
use crate::front::{read_sign, read_word};
use crate::keyword::{Keyword, read_keyword};
use crate::limit::is_oversized;
use crate::plain::{
    read_add, read_call, read_const, read_copy, read_filter, read_focus, read_hoist, read_merge,
    read_plunge, read_prune, read_rename, read_text,
};
use hm_schema_lines::has_double;
use hm_terms::Term;
use hm_tree::{Memory, Name, NameSet};
use std::alloc::Global;

/// What a text is read as.
#[derive(Drop)]
pub enum TermRead {
    Term(Term),
    /// It has too many parentheses and braces within one another, or too many semicolons. Whether it is a term isn't
    /// known.
    Oversized,
    /// It is no term.
    Nothing,
}

/// What a text is read as, from its first byte to its last.
pub fn read_term(alloc: Global, text: &[u8]) -> Result<TermRead, Memory>
    ensures { IfOk result (IsTermRead text.now) }
{
    if is_oversized(text) {
        return Ok(TermRead::Oversized);
    }
    if text.first() == Some(&b' ') {
        return Ok(TermRead::Nothing);
    }
    let Some((term, rest)) = read_sequence(alloc, text)? else {
        return Ok(TermRead::Nothing);
    };
    if rest.is_empty() {
        Ok(TermRead::Term(term))
    } else {
        Ok(TermRead::Nothing)
    }
}

// The term: a part, and more behind each semicolon.
#[cycle(reading)]
fn read_sequence<'a>(alloc: Global, text: &'a [u8]) -> Result<Option<(Term, &'a [u8])>, Memory>
    ensures { IfOk result (IsTermFound IsTerm text.now) }
{
    let Some((first, behind)) = read_part(alloc, text)? else {
        return Ok(None);
    };
    let Some(inner) = read_sign(behind, b';') else {
        return Ok(Some((first, behind)));
    };
    let Some((second, rest)) = read_sequence(alloc, inner)? else {
        return Ok(None);
    };
    let first = Box::new(alloc, first)?;
    let second = Box::new(alloc, second)?;
    Ok(Some((Term::Seq(first, second), rest)))
}

// A term in parentheses, or a keyword with what belongs to it.
#[cycle(reading)]
fn read_part<'a>(alloc: Global, text: &'a [u8]) -> Result<Option<(Term, &'a [u8])>, Memory>
    ensures { IfOk result (IsTermFound IsPart text.now) }
{
    let Some((word, behind)) = read_word(alloc, text)? else {
        return read_in_parentheses(alloc, text);
    };
    match read_keyword(&word) {
        Some(keyword) => read_form(alloc, keyword, behind),
        None => Ok(None),
    }
}

// What stands behind a keyword.
#[cycle(reading)]
fn read_form<'a>(
    alloc: Global,
    keyword: Keyword,
    text: &'a [u8],
) -> Result<Option<(Term, &'a [u8])>, Memory>
    ensures { IfOk result (IsTermFound (IsForm keyword) text.now) }
{
    match keyword {
        Keyword::Id => Ok(Some((Term::Id, text))),
        Keyword::Const => read_const(alloc, text),
        Keyword::Hoist => read_hoist(alloc, text),
        Keyword::Plunge => read_plunge(alloc, text),
        Keyword::Fork => read_fork(alloc, text),
        Keyword::Map => match read_in_parentheses(alloc, text)? {
            Some((inner, rest)) => Ok(Some((Term::Map(Box::new(alloc, inner)?), rest))),
            None => Ok(None),
        },
        Keyword::Each => read_each(alloc, text),
        Keyword::List => match read_in_parentheses(alloc, text)? {
            Some((inner, rest)) => Ok(Some((Term::List(Box::new(alloc, inner)?), rest))),
            None => Ok(None),
        },
        Keyword::Copy => read_copy(alloc, text),
        Keyword::Merge => read_merge(alloc, text),
        Keyword::ByConcrete => read_by_concrete(alloc, text),
        Keyword::ByView => read_by_view(alloc, text),
        Keyword::Text => read_text(alloc, text),
        Keyword::Call => read_call(alloc, text),
        Keyword::Filter => read_filter(alloc, text),
        Keyword::Prune => read_prune(alloc, text),
        Keyword::Focus => read_focus(alloc, text),
        Keyword::Add => read_add(alloc, text),
        Keyword::Rename => read_rename(alloc, text),
    }
}

// A term behind a sign.
#[cycle(reading)]
fn read_behind_sign<'a>(
    alloc: Global,
    text: &'a [u8],
    sign: u8,
) -> Result<Option<(Term, &'a [u8])>, Memory>
    ensures { IfOk result (IsTermFound (BehindSign sign) text.now) }
{
    match read_sign(text, sign) {
        Some(inner) => read_sequence(alloc, inner),
        None => Ok(None),
    }
}

// A term between parentheses.
#[cycle(reading)]
fn read_in_parentheses<'a>(
    alloc: Global,
    text: &'a [u8],
) -> Result<Option<(Term, &'a [u8])>, Memory>
    ensures { IfOk result (IsTermFound InParentheses text.now) }
{
    let Some((term, inner)) = read_behind_sign(alloc, text, b'(')? else {
        return Ok(None);
    };
    match read_sign(inner, b')') {
        Some(rest) => Ok(Some((term, rest))),
        None => Ok(None),
    }
}

// Two terms, with a comma in front of each and a parenthesis behind them.
#[cycle(reading)]
fn read_two_terms<'a>(
    alloc: Global,
    text: &'a [u8],
) -> Result<Option<(Term, Term, &'a [u8])>, Memory>
    ensures { IfOk result (AreTermsFound TwoTerms text.now) }
{
    let Some((first, middle)) = read_behind_sign(alloc, text, b',')? else {
        return Ok(None);
    };
    let Some((second, inner)) = read_behind_sign(alloc, middle, b',')? else {
        return Ok(None);
    };
    match read_sign(inner, b')') {
        Some(rest) => Ok(Some((first, second, rest))),
        None => Ok(None),
    }
}

#[cycle(reading)]
fn read_fork<'a>(alloc: Global, text: &'a [u8]) -> Result<Option<(Term, &'a [u8])>, Memory>
    ensures { IfOk result (IsTermFound (IsForm ForkWord) text.now) }
{
    let Some((concrete, one)) = read_behind::<NameSet>(alloc, text, b'(')? else {
        return Ok(None);
    };
    let Some((shown, two)) = read_behind::<NameSet>(alloc, one, b',')? else {
        return Ok(None);
    };
    let Some((inside, outside, rest)) = read_two_terms(alloc, two)? else {
        return Ok(None);
    };
    let inside = Box::new(alloc, inside)?;
    let outside = Box::new(alloc, outside)?;
    let term = Term::Fork {
        concrete,
        shown,
        inside,
        outside,
    };
    Ok(Some((term, rest)))
}

#[cycle(reading)]
fn read_by_concrete<'a>(alloc: Global, text: &'a [u8]) -> Result<Option<(Term, &'a [u8])>, Memory>
    ensures { IfOk result (IsTermFound (IsForm ByConcreteWord) text.now) }
{
    let Some((name, one)) = read_behind::<Name>(alloc, text, b'(')? else {
        return Ok(None);
    };
    let Some((yes, no, rest)) = read_two_terms(alloc, one)? else {
        return Ok(None);
    };
    let yes = Box::new(alloc, yes)?;
    let no = Box::new(alloc, no)?;
    Ok(Some((Term::ByConcrete { name, yes, no }, rest)))
}

#[cycle(reading)]
fn read_by_view<'a>(alloc: Global, text: &'a [u8]) -> Result<Option<(Term, &'a [u8])>, Memory>
    ensures { IfOk result (IsTermFound (IsForm ByViewWord) text.now) }
{
    let Some((name, one)) = read_behind::<Name>(alloc, text, b'(')? else {
        return Ok(None);
    };
    let Some((shown, two)) = read_behind::<Name>(alloc, one, b',')? else {
        return Ok(None);
    };
    let Some((yes, no, rest)) = read_two_terms(alloc, two)? else {
        return Ok(None);
    };
    let yes = Box::new(alloc, yes)?;
    let no = Box::new(alloc, no)?;
    let term = Term::ByView {
        name,
        shown,
        yes,
        no,
    };
    Ok(Some((term, rest)))
}

// One or more names with a lens for each, and none of them twice.
#[cycle(reading)]
fn read_each<'a>(alloc: Global, text: &'a [u8]) -> Result<Option<(Term, &'a [u8])>, Memory>
    ensures { IfOk result (IsTermFound (IsForm EachWord) text.now) }
{
    let mut names = Vec::new(alloc);
    let mut terms = Vec::new(alloc);
    let mut sign = b'(';
    let mut left = text;
    'pairs: loop {
        let Some((name, one)) = read_behind::<Name>(alloc, left, sign)? else {
            return Ok(None);
        };
        let Some((term, two)) = read_behind_sign(alloc, one, b'=')? else {
            return Ok(None);
        };
        names.push(name.copy()?)?;
        terms.push((name, term))?;
        if let Some(rest) = read_sign(two, b')') {
            if has_double(alloc, &names)? {
                return Ok(None);
            }
            return Ok(Some((Term::Each(terms), rest)));
        }
        sign = b',';
        left = two;
    }
}
