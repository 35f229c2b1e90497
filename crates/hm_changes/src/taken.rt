//! The edges of two nodes, name by name in one order.
ghost use Rattle.std.specs.Prelude.{T, MatchOption, option_copied};
ghost use Rattle.std.specs.FinMap.{is_sorted};
ghost use Rattle.hm_tree.specs.Names.{name_cmp};
ghost use Rattle.hm_changes.specs.Taken.{AreOver, IsTaken};

use hm_tree::{Name, Tree};
use std::cmp::Ordering;

/// A name of two nodes, what stands under it in each, and the edges that are left of both.
#[derive(Clone, Copy)]
pub struct Taken<'a> {
    pub name: &'a Name,
    pub old: Option<&'a Tree>,
    pub new: Option<&'a Tree>,
    pub olds: &'a [(Name, Tree)],
    pub news: &'a [(Name, Tree)],
}

/// Takes the least of the names of two lists of edges off both; none where neither has an edge.
pub fn take_next<'a>(olds: &'a [(Name, Tree)], news: &'a [(Name, Tree)]) -> Option<Taken<'a>>
    requires olds { T (is_sorted name_cmp olds.now) }
    requires news { T (is_sorted name_cmp news.now) }
    ensures { MatchOption result (AreOver olds.now news.now) (λ t. IsTaken olds.now news.now t.name.now (option_copied t.old) (option_copied t.new) t.olds.now t.news.now) }
{
    match (olds.split_first(), news.split_first()) {
        (None, None) => None,
        (Some((edge, rest)), None) => Some(Taken {
            name: &edge.0,
            old: Some(&edge.1),
            new: None,
            olds: rest,
            news,
        }),
        (None, Some((edge, rest))) => Some(Taken {
            name: &edge.0,
            old: None,
            new: Some(&edge.1),
            olds,
            news: rest,
        }),
        (Some((one, ones)), Some((two, twos))) => match one.0.order(&two.0) {
            Ordering::Less => Some(Taken {
                name: &one.0,
                old: Some(&one.1),
                new: None,
                olds: ones,
                news,
            }),
            Ordering::Equal => Some(Taken {
                name: &one.0,
                old: Some(&one.1),
                new: Some(&two.1),
                olds: ones,
                news: twos,
            }),
            Ordering::Greater => Some(Taken {
                name: &two.0,
                old: None,
                new: Some(&two.1),
                olds,
                news: twos,
            }),
        },
    }
}
