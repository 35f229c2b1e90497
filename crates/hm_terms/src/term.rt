//! Terms of lenses, and programs of them.
use hm_schema::{NodeId, Options};
use hm_tree::{Name, NameSet, Tree};

/// A lens, as a program holds it. What it means is `specs/Shown` and `specs/Put`.
#[derive(Drop)]
pub enum Term {
    Id,
    /// The first one, and then the second one on what it shows.
    Seq(Box<Term>, Box<Term>),
    /// This tree is shown; the default is put where there is no tree from before.
    Const {
        tree: Tree,
        default: Tree,
    },
    Hoist(Name),
    Plunge(Name),
    /// The lens inside on the names of `concrete`, which it shows as names of `shown`; the lens outside on the others.
    Fork {
        concrete: NameSet,
        shown: NameSet,
        inside: Box<Term>,
        outside: Box<Term>,
    },
    /// One lens on each child.
    Map(Box<Term>),
    /// A lens for the child of each of these names.
    Each(Vec<(Name, Term)>),
    /// One lens on each item of a list.
    List(Box<Term>),
    /// The child of the first name under the second name too.
    Copy(Name, Name),
    /// The same without the second name.
    Merge(Name, Name),
    /// One lens where the concrete tree has the name, and another where it hasn't.
    ByConcrete {
        name: Name,
        yes: Box<Term>,
        no: Box<Term>,
    },
    /// The same; a view has the name `shown` where the first one showed it.
    ByView {
        name: Name,
        shown: Name,
        yes: Box<Term>,
        no: Box<Term>,
    },
    /// The text of a value through the text lens of this name.
    Text(Name),
    /// The body of the definition of this name.
    Call(Name),
}

/// A named lens between two nodes, which are places in the types of the program's options.
#[derive(Drop)]
pub struct Definition {
    pub name: Name,
    pub source: NodeId,
    pub view: NodeId,
    pub body: Term,
}

/// A format with its options, definitions, which may call one another, and a lens that calls them.
#[derive(Drop)]
pub struct Program {
    pub format: Name,
    pub options: Options,
    pub definitions: Vec<Definition>,
    pub main: Term,
}
