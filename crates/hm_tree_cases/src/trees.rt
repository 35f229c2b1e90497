//! Names, their classes and spellings, sets and paths, with expected values by hand.
use crate::setting::{expect, path_of, set_of, spelled, tree_of};
use hm_tree::{Archive, Class, Memory, Name, NameSet, State, Tree, take_under};
use hm_tree_spelling::{append_path, spell_name, unspell_name};
use std::alloc::Global;
use std::collections::{BTreeMap, VecDeque};
use std::mem::size_of;
use std::test::Fail;

// Whether a text is in each class, in the order in which they are declared.
fn classes_of(alloc: Global, text: &str) -> Result<[bool; 5], Memory> {
    let name = Name::from_text(alloc, text)?;
    Ok([
        name.in_class(Class::Any),
        name.in_class(Class::Clean),
        name.in_class(Class::Filled),
        name.in_class(Class::Trimmed),
        name.in_class(Class::Folded),
    ])
}

const ANY: [bool; 5] = [true, false, false, false, false];

const CLEAN: [bool; 5] = [true, true, false, false, false];

const FILLED: [bool; 5] = [true, true, true, false, false];

const TRIMMED: [bool; 5] = [true, true, true, true, false];

const FOLDED: [bool; 5] = [true, true, true, true, true];

fn expect_classes(alloc: Global, cases: &[(&str, [bool; 5])]) -> Result<(), Fail> {
    for (text, classes) in cases {
        expect(classes_of(alloc, text)? == *classes, text)?;
    }
    Ok(())
}

const ASCII: &[(&str, [bool; 5])] = &[
    ("", CLEAN),
    ("  ", CLEAN),
    (" a", FILLED),
    ("a ", FILLED),
    ("a", FOLDED),
    ("a b", FOLDED),
    ("aB", TRIMMED),
];

#[test]
fn classes_of_ascii(rt: HostRuntime) -> Result<(), Fail> {
    expect_classes(rt.alloc(), ASCII)
}

const CONTROLS: &[(&str, [bool; 5])] = &[
    ("a\tb", FOLDED),
    ("a\nb", FOLDED),
    ("a\rb", ANY),
    ("\x01", ANY),
    ("a\x7f", ANY),
];

#[test]
fn classes_of_controls(rt: HostRuntime) -> Result<(), Fail> {
    expect_classes(rt.alloc(), CONTROLS)
}

// \u{df} folds to ss, \u{c9} to \u{e9}, and \u{e9} to itself.
const LETTERS: &[(&str, [bool; 5])] = &[
    ("\u{df}", TRIMMED),
    ("ss", FOLDED),
    ("\u{e9}", FOLDED),
    ("\u{c9}", TRIMMED),
    ("a\u{e9}", FOLDED),
    ("\u{e9}B", TRIMMED),
    ("\u{e9}\u{1f80}", TRIMMED),
];

#[test]
fn classes_of_letters(rt: HostRuntime) -> Result<(), Fail> {
    expect_classes(rt.alloc(), LETTERS)
}

// Each edge of a tree has a name in it, so what a name takes is what a tree takes.
#[test]
fn room_of_a_name(rt: HostRuntime) {
    assert!(rt; size_of::<Name>() <= 32);
}

// Whether a name of a text and its copy have that text.
fn is_copied(alloc: Global, text: &str) -> Result<bool, Memory> {
    let name = Name::from_text(alloc, text)?;
    let copy = name.copy()?;
    Ok(name.text() == text && copy.text() == text)
}

// Whether a name of a string is that of its text.
fn is_made(alloc: Global, text: &str) -> Result<bool, Memory> {
    let made = Name::from_string(alloc, String::from_str(alloc, text)?)?;
    let name = Name::from_text(alloc, text)?;
    Ok(made.same(&name))
}

// Whether a name is less than another one, and another one.
fn is_less(alloc: Global, one: &str, two: &str) -> Result<bool, Memory> {
    let one = Name::from_text(alloc, one)?;
    let two = Name::from_text(alloc, two)?;
    Ok(one.order(&two).is_lt() && !one.same(&two))
}

// Of 16 bytes a name still lies in the value, of 17 no more.
const SHORT: &str = "abcdefghijklmnop";

const LONG: &str = "abcdefghijklmnopq";

#[test]
fn short_and_long_names(rt: HostRuntime) -> Result<(), Fail> {
    let alloc = rt.alloc();
    for text in [SHORT, LONG] {
        expect(is_copied(alloc, text)?, text)?;
        expect(is_made(alloc, text)?, text)?;
    }
    expect(is_less(alloc, SHORT, LONG)?, "the order")
}

fn is_cleaned(alloc: Global, text: &str, left: &str) -> Result<bool, Memory> {
    Ok(Name::cleaned(alloc, text)?.text() == left)
}

// Each text, and what is left of it.
const CLEANED: &[(&str, &str)] = &[
    ("", ""),
    ("a b", "a b"),
    ("a\r\nb\rc\x01", "a\nb\nc"),
    ("\r\r\n\n", "\n\n\n"),
    ("\t\x7f\u{e9}\x1f", "\t\u{e9}"),
];

#[test]
fn cleaning(rt: HostRuntime) -> Result<(), Fail> {
    for (text, left) in CLEANED {
        expect(is_cleaned(rt.alloc(), text, left)?, text)?;
    }
    Ok(())
}

// Whether some bytes begin with the spelling of a text, of so many bytes.
fn begins(alloc: Global, bytes: &[u8], text: &str, length: usize) -> Result<bool, Memory> {
    match unspell_name(alloc, bytes)? {
        Some((name, end)) => Ok(name.text() == text && end == length),
        None => Ok(false),
    }
}

// Whether a text is spelled so, and that is read back, whatever follows.
fn is_spelled(alloc: Global, text: &str, spelled: &[u8]) -> Result<bool, Memory> {
    let mut bytes = spell_name(alloc, &Name::from_text(alloc, text)?)?;
    let is = bytes.as_slice() == spelled;
    bytes.extend_from_slice(b"\"b\"")?;
    Ok(is && begins(alloc, &bytes, text, spelled.len())?)
}

const SPELLINGS: &[(&str, &[u8])] = &[
    ("", b"\"\""),
    ("abc", b"\"abc\""),
    ("abcdefghijklmnopqrs", b"\"abcdefghijklmnopqrs\""),
    ("a\"b\\c", b"\"a\\\"b\\\\c\""),
    ("\x00\t\n\x1f\x7f", b"\"\\x00\\x09\\x0a\\x1f\\x7f\""),
    ("\u{e9} b", b"\"\xc3\xa9 b\""),
];

#[test]
fn spellings(rt: HostRuntime) -> Result<(), Fail> {
    for (text, spelled) in SPELLINGS {
        expect(is_spelled(rt.alloc(), text, spelled)?, text)?;
    }
    Ok(())
}

const NO_SPELLINGS: &[&[u8]] = &[
    b"",
    b"a\"\"",
    b"\"a",
    b"\"a\\\"",
    b"\"\\q\"",
    b"\"\\x1\"",
    b"\"\\x41\"",
    b"\"\\x1F\"",
    b"\"a\nb\"",
    b"\"\x7f\"",
    b"\"\xc3\"",
];

#[test]
fn no_spellings(rt: HostRuntime) -> Result<(), Fail> {
    for bytes in NO_SPELLINGS {
        assert!(rt; unspell_name(rt.alloc(), bytes)?.is_none());
    }
    Ok(())
}

fn is_in(alloc: Global, set: &NameSet, text: &str) -> Result<bool, Memory> {
    Ok(set.has(&Name::from_text(alloc, text)?))
}

#[test]
fn sets(rt: HostRuntime) -> Result<(), Fail> {
    let alloc = rt.alloc();
    let set = set_of(alloc, &["b", "a", "b", "c", "a"])?;
    expect(spelled(alloc, set.names())?.as_str() == "/a/b/c", "all")?;
    expect(is_in(alloc, &set, "b")?, "b")?;
    expect(!is_in(alloc, &set, "bb")?, "bb")
}

fn is_path_spelled(alloc: Global, texts: &[&str], spelled: &str) -> Result<bool, Memory> {
    let mut bytes = Vec::new(alloc);
    append_path(&path_of(alloc, texts)?, &mut bytes)?;
    Ok(bytes.as_slice() == spelled.as_bytes())
}

const PATHS: &[(&[&str], &str)] = &[
    (&[], "/"),
    (&[""], "/\"\""),
    (&["a", "b/c"], "/\"a\"/\"b/c\""),
    (&["a\"", "\t"], "/\"a\\\"\"/\"\\x09\""),
];

#[test]
fn spellings_of_paths(rt: HostRuntime) -> Result<(), Fail> {
    for (texts, spelled) in PATHS {
        expect(is_path_spelled(rt.alloc(), texts, spelled)?, spelled)?;
    }
    Ok(())
}

fn has(alloc: Global, tree: &Tree, texts: &[&str]) -> Result<bool, Memory> {
    Ok(tree.has(&path_of(alloc, texts)?))
}

// Whether a path is in the tree of an edge below another one.
const PATHS_OF_TWO: &[(&[&str], bool)] = &[
    (&[], true),
    (&["a", "b"], true),
    (&["b"], false),
    (&["a", "a"], false),
    (&["a", "b", "c"], false),
];

#[test]
fn paths_of_a_tree(rt: HostRuntime) -> Result<(), Fail> {
    let tree = tree_of(rt.alloc(), "{\"a\":{\"b\"}}")?;
    for (texts, there) in PATHS_OF_TWO {
        expect(has(rt.alloc(), &tree, texts)? == *there, "a path")?;
    }
    Ok(())
}

// How many edges stand below a name.
fn count_below(alloc: Global, tree: &Tree, text: &str) -> Result<Option<usize>, Memory> {
    let name = Name::from_text(alloc, text)?;
    Ok(tree.child(&name).map(|child| child.count()))
}

#[test]
fn children_of_a_tree(rt: HostRuntime) -> Result<(), Fail> {
    let alloc = rt.alloc();
    let tree = tree_of(alloc, "{\"a\":{\"b\"}}")?;
    expect(count_below(alloc, &tree, "a")? == Some(1), "a")?;
    expect(count_below(alloc, &tree, "b")?.is_none(), "b")
}

// Adds an edge, where a tree has none of that name.
fn add(alloc: Global, tree: &mut Tree, text: &str, child: Tree) -> Result<(), Memory> {
    let name = Name::from_text(alloc, text)?;
    if tree.child(&name).is_none() {
        tree.insert(name, child)?;
    }
    Ok(())
}

fn expect_tree(alloc: Global, tree: &Tree, text: &str) -> Result<(), Fail> {
    expect(tree.same(&tree_of(alloc, text)?), text)
}

fn add_leaf(alloc: Global, tree: &mut Tree, text: &str) -> Result<(), Memory> {
    add(alloc, tree, text, Tree::empty(alloc))
}

#[test]
fn edges_are_added_in_any_order(rt: HostRuntime) -> Result<(), Fail> {
    let alloc = rt.alloc();
    let mut tree = Tree::empty(alloc);
    add_leaf(alloc, &mut tree, "d")?;
    add(alloc, &mut tree, "a", tree_of(alloc, "{\"b\"}")?)?;
    add_leaf(alloc, &mut tree, "c")?;
    add_leaf(alloc, &mut tree, "b")?;
    expect(tree.depth() == 2, "the depth")?;
    expect_tree(alloc, &tree, "{\"a\":{\"b\"},\"b\",\"c\",\"d\"}")
}

#[test]
fn room_in_a_tree_is_not_seen(rt: HostRuntime) -> Result<(), Fail> {
    let alloc = rt.alloc();
    let mut tree = Tree::with_capacity(alloc, 3)?;
    expect_tree(alloc, &tree, "{}")?;
    add_leaf(alloc, &mut tree, "a")?;
    expect_tree(alloc, &tree, "{\"a\"}")
}

#[test]
fn room_in_an_archive_is_not_seen(rt: HostRuntime) -> Result<(), Fail> {
    let archive = Archive::present_with_capacity(rt.alloc(), 3)?;
    expect(archive.records(&Tree::empty(rt.alloc())), "nothing")
}

#[test]
#[tactic(auto, using(hm_tree::specs::NodeLaws::edges_are))]
fn edges_taken_apart_and_put_together(rt: HostRuntime) -> Result<(), Fail> {
    let tree = tree_of(rt.alloc(), "{\"a\":{\"b\"}}")?;
    let again = Tree::of_edges(tree.into_edges())?;
    expect(
        again.count() == 1 && again.depth() == 2,
        "one below another",
    )
}

// The archive of a tree, with a mark at a name where it had nothing.
fn with_mark(alloc: Global, tree: &Tree, text: &str) -> Result<Archive, Memory> {
    let mut archive = Archive::of_tree(tree)?;
    let name = Name::from_text(alloc, text)?;
    if archive.root() == State::Present && archive.child(&name).is_none() {
        archive.insert(name, Archive::marked(alloc))?;
    }
    Ok(archive)
}

fn state_at(alloc: Global, archive: &Archive, texts: &[&str]) -> Result<State, Memory> {
    Ok(archive.state(&path_of(alloc, texts)?))
}

// The states of what holds a and has a mark at b.
const STATES: &[(&[&str], State)] = &[
    (&[], State::Present),
    (&["a"], State::Present),
    (&["a", "b"], State::Missing),
    (&["b"], State::Marked),
    (&["b", "c"], State::Marked),
    (&["c"], State::Missing),
];

#[test]
fn states_of_an_archive(rt: HostRuntime) -> Result<(), Fail> {
    let alloc = rt.alloc();
    let archive = with_mark(alloc, &tree_of(alloc, "{\"a\"}")?, "b")?;
    for (texts, state) in STATES {
        expect(state_at(alloc, &archive, texts)? == *state, "a state")?;
    }
    Ok(())
}

#[test]
fn what_is_missing_has_no_child(rt: HostRuntime) -> Result<(), Fail> {
    let alloc = rt.alloc();
    let archive = with_mark(alloc, &tree_of(alloc, "{\"a\"}")?, "b")?;
    let name = Name::from_text(alloc, "c")?;
    expect(archive.child(&name).is_none(), "c")?;
    let state = state_at(alloc, &Archive::missing(alloc), &[])?;
    expect(state == State::Missing, "the root")
}

// Whether each tree is within an archive.
fn expect_within(alloc: Global, archive: &Archive, cases: &[(&str, bool)]) -> Result<(), Fail> {
    for (text, is) in cases {
        expect(tree_of(alloc, text)?.within(archive) == *is, text)?;
    }
    Ok(())
}

const WITHIN: &[(&str, bool)] = &[
    ("{\"b\":{\"c\"}}", true),
    ("{}", true),
    ("{\"a\"}", false),
    ("{\"c\"}", false),
    ("{\"b\":{\"d\"}}", false),
];

#[test]
fn trees_within_an_archive(rt: HostRuntime) -> Result<(), Fail> {
    let alloc = rt.alloc();
    let archive = with_mark(alloc, &tree_of(alloc, "{\"b\":{\"c\"}}")?, "a")?;
    expect_within(alloc, &archive, WITHIN)
}

#[test]
fn no_tree_is_within_nothing(rt: HostRuntime) -> Result<(), Fail> {
    let alloc = rt.alloc();
    expect_within(alloc, &Archive::marked(alloc), &[("{}", false)])?;
    expect_within(alloc, &Archive::missing(alloc), &[("{}", false)])
}

// The depth of what stood under a name, then how many edges are left and how deep.
type Taken = (Option<usize>, usize, usize);

fn taken(alloc: Global, tree: &mut Tree, text: &str) -> Result<Taken, Memory> {
    let name = Name::from_text(alloc, text)?;
    let depth = tree.without(&name).map(|child| child.depth());
    Ok((depth, tree.count(), tree.depth()))
}

const TAKEN: &[(&str, Taken)] = &[
    ("a", (Some(1), 1, 1)),
    ("a", (None, 1, 1)),
    ("c", (Some(0), 0, 0)),
];

#[test]
fn edges_taken_out(rt: HostRuntime) -> Result<(), Fail> {
    let mut tree = tree_of(rt.alloc(), "{\"a\":{\"b\"},\"c\"}")?;
    for (text, want) in TAKEN {
        expect(taken(rt.alloc(), &mut tree, text)? == *want, text)?;
    }
    Ok(())
}

type Counts = BTreeMap<Name, u64>;

// Names are keys in the order of their bytes: \u{e9} is greater than z.
fn counts(alloc: Global) -> Result<Counts, Memory> {
    let mut counts = BTreeMap::new(alloc);
    counts.insert(Name::from_text(alloc, "\u{e9}")?, 1)?;
    counts.insert(Name::from_text(alloc, "z")?, 2)?;
    counts.insert(Name::from_text(alloc, "\u{e9}")?, 3)?;
    Ok(counts)
}

fn count_at(alloc: Global, counts: &Counts, text: &str) -> Result<Option<u64>, Memory> {
    Ok(counts.get(&Name::from_text(alloc, text)?).copied())
}

#[test]
fn names_as_keys(rt: HostRuntime) -> Result<(), Fail> {
    let alloc = rt.alloc();
    let counts = counts(alloc)?;
    let first = counts.first_key_value().map(|first| *first.1);
    expect(counts.len() == 2 && first == Some(2), "z")?;
    expect(count_at(alloc, &counts, "\u{e9}")? == Some(3), "\u{e9}")?;
    expect(count_at(alloc, &counts, "e")?.is_none(), "e")
}

const TREE: &str = "{\"a\",\"b\",\"c\",\"d\"}";

const NAMES: [&str; 4] = ["e", "b", "d", "aa"];

#[test]
#[tactic(auto, using(hm_tree::proofs::Parted::parts_apart))]
fn parts_of_a_tree(rt: HostRuntime) -> Result<(), Fail> {
    let alloc = rt.alloc();
    let tree = tree_of(alloc, TREE)?;
    let (inside, outside) = tree.split(&set_of(alloc, &NAMES)?)?;
    expect_tree(alloc, &inside, "{\"b\",\"d\"}")?;
    expect_tree(alloc, &outside, "{\"a\",\"c\"}")?;
    expect(Tree::join(inside, outside)?.same(&tree), "both parts")
}

#[test]
fn parts_of_a_tree_that_is_given(rt: HostRuntime) -> Result<(), Fail> {
    let alloc = rt.alloc();
    let (inside, outside) = tree_of(alloc, TREE)?.into_parts(&set_of(alloc, &NAMES)?)?;
    expect(inside.count() == 2 && outside.count() == 2, "two and two")
}

#[test]
#[tactic(auto, using(hm_tree::specs::NodeLaws::edges_sorted))]
fn edges_taken_on_a_walk(rt: HostRuntime) -> Result<(), Fail> {
    let alloc = rt.alloc();
    let missing = Name::from_text(alloc, "b")?;
    let there = Name::from_text(alloc, "c")?;
    let mut rest = VecDeque::from(tree_of(alloc, "{\"a\",\"c\",\"d\"}")?.into_edges());
    let first = (take_under(&mut rest, &missing).is_some(), rest.len());
    let second = (take_under(&mut rest, &there).is_some(), rest.len());
    expect(first == (false, 2) && second == (true, 1), "b and c")
}
