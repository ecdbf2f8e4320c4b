//! How far a path's clauses were looked at, and what comes next.
ghost use Rattle.std.specs.Prelude.{◌≡◌, ◌<◌, length, map, true, false, MatchOption};
ghost use Rattle.bg_formula.specs.Formulas.{formula_of};
ghost use Rattle.bg_cert.specs.Paths.{names_false};
ghost use Rattle.bg_cert.specs.Causes.{is_decided, any_false, all_decided, any_open};
ghost use Rattle.bg_cert.specs.Walks.{has};
ghost use Rattle.bg_pick.specs.declared.hint.Hint.{Hint};
ghost use Rattle.bg_pick.specs.Index.{clause_at};
ghost use Rattle.bg_pick.specs.Problems.{formula_in, set_in};
ghost use Rattle.bg_pick.specs.Marks.{NoneFalse, NoUnit, IsFirstUnit, AllPassed, IsUnitOf, TrueBelow, DecidedBelow, IsOpenOf, IsMark};

use crate::hint::{Hint, is_false, one_at};
use crate::left::{is_decided, some_left};
use crate::problem::Problem;
use crate::rows::row_at;
use bg_cert::Trail;
use bg_formula::{Clauses, Literal};

/// A place of a path's rows, before which no clause is a unit; the clause before which each has a
/// true literal; and the atom before which each is decided. Of the look ahead that chose the last
/// split the clause, the number of rows then, and the clause's row. The number of decisions whose
/// rows were looked at. And for the choice of a clause the number of decisions of which it is known what
/// they reach; and the clauses before which each that is reached is met, each is met, and each has a
/// true literal or no candidate outside the set that could give it one.
#[derive(Clone, Copy)]
pub struct Mark {
    pub row: usize,
    pub place: usize,
    pub clause: usize,
    pub atom: usize,
    pub look: usize,
    pub top: usize,
    pub from: usize,
    pub asked: usize,
    pub done: usize,
    pub reached: usize,
    pub unmet: usize,
    pub untrue: usize,
}

/// The first of the hints that names a false clause.
pub fn first_false(f: &Clauses, set: &[bool], trail: &Trail, hints: &[Hint]) -> Option<Hint>
    ensures { MatchOption result (NoneFalse (formula_of f.now) (has set.now) trail.now.decisions.items hints.now) (λ x. names_false trail.now.decisions.items (clause_at (formula_of f.now) (has set.now) x) ≡ true) }
{
    for x in hints {
        if is_false(f, set, trail, *x) {
            return Some(*x);
        }
    }
    None
}

/// The first unit of the hints, from a place on, with its atom.
fn unit_from(
    f: &Clauses,
    set: &[bool],
    trail: &Trail,
    hints: &[Hint],
    from: usize,
) -> Option<(usize, u32)>
    ensures { MatchOption result (NoUnit (formula_of f.now) (has set.now) trail.now.decisions.items hints.now from (length hints.now)) (λ u. IsFirstUnit (formula_of f.now) (has set.now) trail.now.decisions.items hints.now from u.0 u.1) }
{
    for k in from..hints.len() {
        if let Some(a) = one_at(f, set, trail, hints[k]) {
            return Some((k, a));
        }
    }
    None
}

/// The next unit's atom. The mark goes no further than to it.
pub fn next_unit(problem: &Problem<'_>, trail: &Trail, mark: &mut Mark) -> Option<u32>
    requires { IsMark (formula_in problem.now) (set_in problem.now) problem.now.index.now trail.now.decisions.items mark.old }
    ensures keeps { IsMark (formula_in problem.now) (set_in problem.now) problem.now.index.now trail.now.decisions.items mark.new }
    ensures unit { MatchOption result (AllPassed (formula_in problem.now) (set_in problem.now) trail.now.decisions.items) (λ a. IsUnitOf (formula_in problem.now) (set_in problem.now) trail.now.decisions.items a) }
{
    while mark.row <= trail.decisions.len() {
        let hints = row_at(problem.index, trail, mark.row);
        match unit_from(problem.formula, problem.set, trail, hints, mark.place) {
            Some((k, a)) => {
                mark.place = k;
                return Some(a);
            }
            None => {
                mark.row += 1;
                mark.place = 0;
            }
        }
    }
    None
}

/// The first clause without a true literal, with an atom of it, where those before a place have
/// one and none is false.
pub fn open_from(trail: &Trail, clauses: &[Vec<Literal>], from: usize) -> Option<(usize, u32)>
    requires before { TrueBelow trail.now.decisions.items (map (λ c. c.items) clauses.now) from }
    requires fine { any_false trail.now.decisions.items (map (λ c. c.items) clauses.now) ≡ false }
    ensures before { MatchOption result (TrueBelow trail.now.decisions.items (map (λ c. c.items) clauses.now) (length clauses.now)) (λ u. TrueBelow trail.now.decisions.items (map (λ c. c.items) clauses.now) u.0) }
    ensures open { MatchOption result (any_open trail.now.decisions.items (map (λ c. c.items) clauses.now) ≡ false) (λ u. IsOpenOf trail.now.decisions.items (map (λ c. c.items) clauses.now) u.1) }
{
    for k in from..clauses.len() {
        if let Some(a) = some_left(trail, &clauses[k]) {
            return Some((k, a));
        }
    }
    None
}

/// The first undecided atom, where those before one are decided.
pub fn free_from(trail: &Trail, n: usize, from: usize) -> Option<usize>
    requires { DecidedBelow trail.now.decisions.items from }
    ensures before { MatchOption result (DecidedBelow trail.now.decisions.items n) (λ a. DecidedBelow trail.now.decisions.items a) }
    ensures free { MatchOption result (all_decided n trail.now.decisions.items ≡ true) (λ a. (is_decided a trail.now.decisions.items ≡ false) × (a < n)) }
{
    for a in from..n {
        if !is_decided(trail, a) {
            return Some(a);
        }
    }
    None
}
