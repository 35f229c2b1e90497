//! Writing: each form of the grammar at the end of one text, without spaces.
ghost use Rattle.std.specs.Prelude.{◌≡◌, ◌++◌, codes, flat_map, OnOk, OnErr};
ghost use Rattle.hm_tree_spelling.specs.Spelling.{spelled};
ghost use Rattle.hm_terms.specs.Programs.{lens_of};
ghost use Rattle.hm_focal_terms.specs.Written.{set_text, spelled_tree, is_sequence, opening, closing, front_text, term_text};

use hm_terms::Term;
use hm_tree::{Memory, Name, NameSet, Tree};
use hm_tree_spelling::append_spelled;
use hm_tree_text::spell_tree;

/// Appends the text of a term. Where there is no memory for it, nothing is appended.
pub fn append_term(text: &mut Vec<u8>, term: &Term) -> Result<(), Memory>
    ensures ok { OnOk result (text.new.items ≡ text.old.items ++ term_text (lens_of term.now)) }
    ensures err { OnErr result (text.new.items ≡ text.old.items) }
{
    let mut written = Vec::new(*text.allocator());
    put_term(&mut written, term)?;
    text.extend_from_slice(&written)?;
    Ok(())
}

fn put(text: &mut Vec<u8>, bytes: &[u8]) -> Result<(), Memory>
    ensures { OnOk result (text.new.items ≡ text.old.items ++ bytes.now) }
{
    text.extend_from_slice(bytes)?;
    Ok(())
}

// A name and then some bytes.
fn put_edge(text: &mut Vec<u8>, name: &Name, last: &[u8]) -> Result<(), Memory>
    ensures { OnOk result (text.new.items ≡ text.old.items ++ (spelled name.now ++ last.now)) }
{
    append_spelled(name, text)?;
    put(text, last)
}

fn put_names(text: &mut Vec<u8>, names: &[Name]) -> Result<(), Memory>
    ensures { OnOk result (text.new.items ≡ text.old.items ++ flat_map spelled names.now) }
{
    for name in names {
        append_spelled(name, text)?;
    }
    Ok(())
}

// A set and then some bytes.
fn put_set(text: &mut Vec<u8>, set: &NameSet, last: &[u8]) -> Result<(), Memory>
    ensures { OnOk result (text.new.items ≡ text.old.items ++ (set_text set.now ++ last.now)) }
{
    text.push(b'{')?;
    put_names(text, set.names())?;
    text.push(b'}')?;
    put(text, last)
}

// A tree and then some bytes.
fn put_tree(text: &mut Vec<u8>, tree: &Tree, last: &[u8]) -> Result<(), Memory>
    ensures { OnOk result (text.new.items ≡ text.old.items ++ (spelled_tree tree.now ++ last.now)) }
{
    let spelled = spell_tree(*text.allocator(), tree)?;
    put(text, &spelled)?;
    put(text, last)
}

fn is_sequence(term: &Term) -> bool
    ensures { result ≡ is_sequence (lens_of term.now) }
{
    matches!(term, Term::Seq(_, _))
}

// The parenthesis in front of a term that stands left of a semicolon, and the one behind it.
fn opening(term: &Term) -> &'static [u8]
    ensures { result.now ≡ opening (is_sequence (lens_of term.now)) }
{
    if is_sequence(term) { b"(" } else { b"" }
}

fn closing(term: &Term) -> &'static [u8]
    ensures { result.now ≡ closing (is_sequence (lens_of term.now)) }
{
    if is_sequence(term) { b")" } else { b"" }
}

// A keyword with a name and then some bytes, or with two.
fn put_one(text: &mut Vec<u8>, keyword: &[u8], name: &Name, last: &[u8]) -> Result<(), Memory>
    ensures { OnOk result (text.new.items ≡ text.old.items ++ (keyword.now ++ (spelled name.now ++ last.now))) }
{
    put(text, keyword)?;
    put_edge(text, name, last)
}

fn put_two(
    text: &mut Vec<u8>,
    keyword: &[u8],
    one: &Name,
    two: &Name,
    last: &[u8],
) -> Result<(), Memory>
    ensures { OnOk result (text.new.items ≡ text.old.items ++ (keyword.now ++ (spelled one.now ++ (codes "," ++ (spelled two.now ++ last.now))))) }
{
    put_one(text, keyword, one, b",")?;
    put_edge(text, two, last)
}

// A keyword with a word, and a parenthesis.
fn put_word(text: &mut Vec<u8>, keyword: &[u8], word: &Name) -> Result<(), Memory>
    ensures { OnOk result (text.new.items ≡ text.old.items ++ (keyword.now ++ (word.now ++ codes ")"))) }
{
    put(text, keyword)?;
    put(text, word.bytes())?;
    put(text, b")")
}

// What stands in front of the terms inside, or all where there are none.
fn put_front(text: &mut Vec<u8>, term: &Term) -> Result<(), Memory>
    ensures { OnOk result (text.new.items ≡ text.old.items ++ front_text (lens_of term.now)) }
{
    match term {
        Term::Id => put(text, b"id"),
        Term::Seq(_, _) => Ok(()),
        Term::Const { tree, default } => {
            put(text, b"const(")?;
            put_tree(text, tree, b",")?;
            put_tree(text, default, b")")
        }
        Term::Hoist(name) => put_one(text, b"hoist(", name, b")"),
        Term::Plunge(name) => put_one(text, b"plunge(", name, b")"),
        Term::Fork {
            concrete,
            shown,
            ..
        } => {
            put(text, b"xfork(")?;
            put_set(text, concrete, b",")?;
            put_set(text, shown, b",")
        }
        Term::Map(_) => put(text, b"map("),
        Term::Each(_) => put(text, b"wmap("),
        Term::List(_) => put(text, b"list("),
        Term::Copy(name, twin) => put_two(text, b"copy(", name, twin, b")"),
        Term::Merge(name, twin) => put_two(text, b"merge(", name, twin, b")"),
        Term::ByConcrete { name, .. } => put_one(text, b"ccond(", name, b","),
        Term::ByView { name, shown, .. } => put_two(text, b"acond(", name, shown, b","),
        Term::Text(name) => put_word(text, b"text(", name),
        Term::Call(name) => put_word(text, b"call(", name),
    }
}

fn put_term(text: &mut Vec<u8>, term: &Term) -> Result<(), Memory>
    ensures { OnOk result (text.new.items ≡ text.old.items ++ term_text (lens_of term.now)) }
{
    put_front(text, term)?;
    match term {
        Term::Seq(first, second) => {
            put(text, opening(first))?;
            put_term(text, first)?;
            put(text, closing(first))?;
            put(text, b";")?;
            put_term(text, second)
        }
        Term::Fork {
            inside: one,
            outside: two,
            ..
        }
        | Term::ByConcrete {
            yes: one,
            no: two,
            ..
        }
        | Term::ByView {
            yes: one,
            no: two,
            ..
        } => {
            put_term(text, one)?;
            put(text, b",")?;
            put_term(text, two)?;
            put(text, b")")
        }
        Term::Map(inner) | Term::List(inner) => {
            put_term(text, inner)?;
            put(text, b")")
        }
        Term::Each(terms) => {
            let mut separator: &[u8] = b"";
            for term in terms {
                put(text, separator)?;
                put_edge(text, &term.0, b"=")?;
                put_term(text, &term.1)?;
                separator = b",";
            }
            put(text, b")")
        }
        _ => Ok(()),
    }
}
