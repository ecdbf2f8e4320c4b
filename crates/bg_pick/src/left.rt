//! What a path leaves undecided of a clause.
ghost use Rattle.std.specs.Prelude.{◌≡◌};
ghost use Rattle.bg_cert.specs.Causes.{is_decided, has_true, undecided};
ghost use Rattle.bg_pick.specs.declared.left.Left.TheVariants.{One};
ghost use Rattle.bg_pick.specs.Picks.{left_of, join_left, one_left, some_left};

use bg_cert::{Trail, decides};
use bg_formula::Literal;

/// How many undecided atoms there are, with the first one.
#[derive(Clone, Copy)]
pub enum Left {
    Nothing,
    One(u32),
    Several(u32),
}

pub fn is_decided(trail: &Trail, a: usize) -> bool
    ensures { result ≡ is_decided a trail.now.decisions.items }
{
    decides(trail, a, true) || decides(trail, a, false)
}

pub fn has_true(trail: &Trail, clause: &[Literal]) -> bool
    ensures { result ≡ has_true trail.now.decisions.items clause.now }
{
    for l in clause {
        if decides(trail, l.atom as usize, l.sign) {
            return true;
        }
    }
    false
}

fn add(left: Left, a: u32) -> Left
    ensures { result ≡ join_left left (One a) }
{
    match left {
        Left::Nothing => Left::One(a),
        Left::One(b) => {
            if b == a {
                Left::One(b)
            } else {
                Left::Several(b)
            }
        }
        Left::Several(b) => Left::Several(b),
    }
}

#[tactic(auto, using(crate::proofs::Lefts::left_front, crate::proofs::Lefts::then_then))]
fn left_of(trail: &Trail, clause: &[Literal]) -> Left
    ensures { result ≡ left_of (undecided trail.now.decisions.items clause.now) }
{
    let mut left = Left::Nothing;
    for l in clause {
        if !is_decided(trail, l.atom as usize) {
            left = add(left, l.atom);
        }
    }
    left
}

/// The atom of a clause that is a unit.
pub fn one_left(trail: &Trail, clause: &[Literal]) -> Option<u32>
    ensures { result ≡ one_left trail.now.decisions.items clause.now }
{
    if has_true(trail, clause) {
        return None;
    }
    match left_of(trail, clause) {
        Left::One(a) => Some(a),
        _ => None,
    }
}

/// An undecided atom of a clause without a true literal.
pub fn some_left(trail: &Trail, clause: &[Literal]) -> Option<u32>
    ensures { result ≡ some_left trail.now.decisions.items clause.now }
{
    if has_true(trail, clause) {
        return None;
    }
    match left_of(trail, clause) {
        Left::One(a) => Some(a),
        Left::Several(a) => Some(a),
        Left::Nothing => None,
    }
}
