//! Clauses of the formula and units of the set, named alike.
ghost use Rattle.std.specs.Prelude.{◌≡◌};
ghost use Rattle.bg_formula.specs.Formulas.{formula_of};
ghost use Rattle.bg_cert.specs.Paths.{names_false};
ghost use Rattle.bg_cert.specs.Causes.{member_atom};
ghost use Rattle.bg_cert.specs.Walks.{has};
ghost use Rattle.bg_pick.specs.Index.{clause_at};
ghost use Rattle.bg_pick.specs.Marks.{one_at};

use crate::left::{is_decided, one_left};
use bg_cert::{Trail, decides, names_false};
use bg_formula::Clauses;

/// A clause by its place, or the unit of the set's member with this number.
#[derive(Clone, Copy)]
pub enum Hint {
    Nth(usize),
    Member(usize),
}

/// The atom that a candidate adds, if it is a member and has one.
#[tactic(auto, using(bg_cert::proofs::Places::at_there, bg_cert::proofs::Places::at_missing))]
pub fn member_atom(f: &Clauses, set: &[bool], c: usize) -> Option<u32>
    ensures { result ≡ member_atom (formula_of f.now) (has set.now) c }
{
    if c < set.len() && set[c] {
        if c < f.candidates.len() {
            f.candidates[c]
        } else {
            None
        }
    } else {
        None
    }
}

/// Whether the clause is there and is false on the path.
pub fn is_false(f: &Clauses, set: &[bool], trail: &Trail, hint: Hint) -> bool
    ensures { result ≡ names_false trail.now.decisions.items (clause_at (formula_of f.now) (has set.now) hint) }
{
    match hint {
        Hint::Nth(k) => names_false(trail, &f.clauses, k as u128),
        Hint::Member(c) => match member_atom(f, set, c) {
            Some(a) => decides(trail, a as usize, false),
            None => false,
        },
    }
}

/// The atom of a clause that is there and is a unit.
pub fn one_at(f: &Clauses, set: &[bool], trail: &Trail, hint: Hint) -> Option<u32>
    ensures { result ≡ one_at trail.now.decisions.items (clause_at (formula_of f.now) (has set.now) hint) }
{
    match hint {
        Hint::Nth(k) => {
            if k < f.clauses.len() {
                one_left(trail, &f.clauses[k])
            } else {
                None
            }
        }
        Hint::Member(c) => match member_atom(f, set, c) {
            Some(a) => {
                if is_decided(trail, a as usize) {
                    None
                } else {
                    Some(a)
                }
            }
            None => None,
        },
    }
}
