//! How many terms a term has.
ghost use Rattle.std.specs.Prelude.{◌≡◌, ◌↔◌, ◌+◌, ◌<◌, IsTrue, MatchOption};
ghost use Rattle.hm_terms.specs.Programs.{lens_of};
ghost use Rattle.hm_focal_terms.specs.Limits.{terms_of, IsLong};

use hm_terms::Term;

const MOST_TERMS: usize = 2000;

/// Whether a term has more than 2,000 terms, itself and those inside.
pub fn is_long(term: &Term) -> bool
    ensures { IsTrue result ↔ IsLong (lens_of term.now) }
{
    room_behind(term, MOST_TERMS).is_none()
}

// How many further terms there may be behind a term, where there may be so many from it on.
fn room_behind(term: &Term, room: usize) -> Option<usize>
    ensures { MatchOption result (room < terms_of (lens_of term.now)) (λ left. terms_of (lens_of term.now) + left ≡ room) }
{
    if room == 0 {
        return None;
    }
    let room = room - 1;
    match term {
        Term::Seq(first, second) => room_behind(second, room_behind(first, room)?),
        Term::Fork {
            inside,
            outside,
            ..
        } => room_behind(outside, room_behind(inside, room)?),
        Term::ByConcrete { yes, no, .. } => room_behind(no, room_behind(yes, room)?),
        Term::ByView { yes, no, .. } => room_behind(no, room_behind(yes, room)?),
        Term::Map(inner) => room_behind(inner, room),
        Term::List(inner) => room_behind(inner, room),
        Term::Each(terms) => {
            let mut left = room;
            for term in terms {
                match room_behind(&term.1, left) {
                    Some(rest) => left = rest,
                    None => return None,
                }
            }
            Some(left)
        }
        _ => Some(room),
    }
}
