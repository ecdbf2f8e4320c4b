//! A look ahead: an atom that has one value whichever literal of an open clause is true, as the dilemma rule says (Sheeran and
//! Stålmarck, A tutorial on Stålmarck's proof procedure for propositional logic, 2000). Below its other value the clause soon
//! closes the path, and what was common to all cases is known behind them.
ghost use Rattle.std.specs.Prelude.{◌≡◌, IfSome, map};
ghost use Rattle.bg_cert.specs.Causes.{is_among};
ghost use Rattle.bg_pick.specs.Marks.{stands_in, StandsOpen, IsOpenAt};

use crate::hint::Hint;
use crate::left::{has_true, is_decided};
use crate::mark::Mark;
use crate::probe::{Common, Probe, assume, forget, is_met, spread, value_of};
use crate::problem::Problem;
use crate::rows::{hints_at, row_at};
use bg_cert::{Decision, Trail, decides};
use bg_formula::{Atom, Clauses, Literal};

/// How many clauses are looked at for one split.
const MOST_CLAUSES: u32 = 4096;

/// How many splits at most are chosen without a look, where looks tell nothing.
const MOST_REST: u32 = 1024;

/// How many literals a clause may leave undecided.

const MOST_LITERALS: u32 = 4;

/// Notes a value behind `count` literals. True where all of them have it in common.
fn note_one(p: &mut Probe, a: u32, count: u32) -> bool {
    let Some(Some(value)) = p.assumed.get(a as usize) else {
        return false;
    };
    let value = *value;
    let turn = p.turn;
    let Some(c) = p.common.get_mut(a as usize) else {
        return false;
    };
    let goes_on = count == 0 || (c.turn == turn && c.count == count && c.value == value);
    if goes_on {
        *c = Common {
            turn,
            count: count.saturating_add(1),
            value,
        };
    }
    goes_on
}

/// Notes the values that are assumed, behind `count` literals. Answers the first one that all of them have in common, if any.
fn note(p: &mut Probe, count: u32) -> Option<u32> {
    let mut found = None;
    for k in 0..p.order.len() {
        if let Some(a) = p.order.get(k) {
            let a = *a;
            if note_one(p, a, count) && found.is_none() {
                found = Some(a);
            }
        }
    }
    found
}

/// The atom of an undecided literal of the clause that can't be true.
fn look_for_false(
    problem: &Problem<'_>,
    trail: &Trail,
    p: &mut Probe,
    clause: &[Literal],
) -> Option<u32> {
    for l in clause {
        if value_of(trail, p, l.atom).is_none() {
            assume(p, *l);
            let fails = spread(problem, trail, p);
            forget(p);
            if fails {
                return Some(l.atom);
            }
        }
    }
    None
}

/// An atom that has one value behind each undecided literal of the clause.
fn look_for_common(
    problem: &Problem<'_>,
    trail: &Trail,
    p: &mut Probe,
    clause: &[Literal],
) -> Option<u32> {
    p.turn = p.turn.wrapping_add(1);
    let mut found = None;
    let mut count: u32 = 0;
    for l in clause {
        if value_of(trail, p, l.atom).is_none() {
            if count >= MOST_LITERALS {
                return None;
            }
            assume(p, *l);
            let _ = spread(problem, trail, p);
            found = note(p, count);
            forget(p);
            found?;
            count = count.saturating_add(1);
        }
    }
    found
}

fn is_among(clause: &[Literal], a: u32) -> bool
    ensures { result ≡ is_among a clause.now }
{
    for l in clause {
        if l.atom == a {
            return true;
        }
    }
    false
}

/// Whether the clause has no true literal and the atom stands in it.
fn stands_in(trail: &Trail, clause: &[Literal], a: u32) -> bool
    ensures { result ≡ stands_in a trail.now.decisions.items clause.now }
{
    !has_true(trail, clause) && is_among(clause, a)
}

/// A clause of these hints that has no true literal and in which the atom stands.
fn open_with(f: &Clauses, trail: &Trail, hints: &[Hint], a: u32) -> Option<usize>
    ensures { IfSome result (λ k. StandsOpen trail.now.decisions.items (map (λ c. c.items) f.now.clauses.items) k a) }
{
    for x in hints {
        if let Hint::Nth(k) = x {
            if *k < f.clauses.len() && stands_in(trail, &f.clauses[*k], a) {
                return Some(*k);
            }
        }
    }
    None
}

/// An atom to split by what a clause tells that isn't met: by a literal that can't be true, or by what all of them have in common.
fn look_at(
    problem: &Problem<'_>,
    trail: &Trail,
    p: &mut Probe,
    k: usize,
    common: bool,
) -> Option<u32> {
    let clause = problem.formula.clauses.get(k)?;
    if is_met(trail, p, clause) {
        None
    } else if common {
        look_for_common(problem, trail, p, clause)
    } else {
        look_for_false(problem, trail, p, clause)
    }
}

/// An atom to split by what a decision's clauses tell. The mark keeps the clause that tells it.
fn look_along(
    problem: &Problem<'_>,
    trail: &Trail,
    p: &mut Probe,
    row: usize,
    mark: &mut Mark,
) -> Option<u32> {
    for hint in row_at(problem.index, trail, row) {
        if let Hint::Nth(k) = hint {
            if p.left > 0 {
                p.left -= 1;
                if let Some(a) = look_at(problem, trail, p, *k, true) {
                    mark.look = *k;
                    return Some(a);
                }
            }
        }
    }
    None
}

/// The same along the rows from `high` down to the one above `low`.
fn look_down(
    problem: &Problem<'_>,
    trail: &Trail,
    p: &mut Probe,
    high: usize,
    low: usize,
    mark: &mut Mark,
) -> Option<u32> {
    for row in (low..high).rev() {
        if p.left == 0 {
            return None;
        }
        if let Some(a) = look_along(problem, trail, p, row.saturating_add(1), mark) {
            mark.from = row;
            mark.top = trail.decisions.len();
            return Some(a);
        }
    }
    None
}

/// An atom to split by what the clauses of the decisions tell: first those of decisions behind the last look, then those before the
/// one at which it ended, and at last those between, at which it looked in vain.
fn look_back(problem: &Problem<'_>, trail: &Trail, p: &mut Probe, mark: &mut Mark) -> Option<u32> {
    p.left = MOST_CLAUSES;
    let (top, from) = (mark.top, mark.from);
    if let Some(a) = look_down(problem, trail, p, trail.decisions.len(), top, mark) {
        return Some(a);
    }
    if let Some(a) = look_down(problem, trail, p, from.saturating_add(1), 0, mark) {
        return Some(a);
    }
    look_down(problem, trail, p, top, from, mark)
}

/// An atom to split by a look ahead. The clause that chose the last split is looked at first: below the value that all its literals
/// deny, each of them can't be true. Where looks tell nothing they become rarer.
fn candidate(problem: &Problem<'_>, trail: &Trail, p: &mut Probe, mark: &mut Mark) -> Option<u32> {
    if let Some(a) = look_at(problem, trail, p, mark.look, false) {
        return Some(a);
    }
    if p.rest > 0 {
        p.rest -= 1;
        return None;
    }
    let found = look_back(problem, trail, p, mark);
    p.pause = match found {
        Some(_) => 0,
        None => MOST_REST.min(p.pause.saturating_mul(2).saturating_add(1)),
    };
    p.rest = p.pause;
    found
}

/// Whether a clause says something of a block or of a part of a form that is reached: it begins with the denial of a truth atom that
/// is true.
fn is_reached(f: &Clauses, trail: &Trail, clause: &[Literal]) -> bool {
    let Some(l) = clause.get(0) else {
        return false;
    };
    if l.sign {
        return false;
    }
    match f.atoms.get(l.atom as usize) {
        Some(Atom::Truth(_)) => decides(trail, l.atom as usize, true),
        _ => false,
    }
}

/// The first undecided atom of a clause.
fn undecided_in(trail: &Trail, clause: &[Literal]) -> Option<u32> {
    for l in clause {
        if !is_decided(trail, l.atom as usize) {
            return Some(l.atom);
        }
    }
    None
}

/// The first undecided atom of a clause that a value is assumed of.
fn assumed_in(trail: &Trail, p: &Probe, clause: &[Literal]) -> Option<u32> {
    for l in clause {
        if !is_decided(trail, l.atom as usize) && value_of(trail, p, l.atom).is_some() {
            return Some(l.atom);
        }
    }
    None
}

/// Whether a clause begins with the denial of the atom.
fn begins_with(clause: &[Literal], a: usize) -> bool {
    match clause.get(0) {
        Some(l) => !l.sign && l.atom as usize == a,
        None => false,
    }
}

/// The first clause that says something of what a truth atom tells. Lists of the index name clauses in their order.
fn first_of(problem: &Problem<'_>, a: usize) -> Option<usize> {
    let Some(Atom::Truth(_)) = problem.formula.atoms.get(a) else {
        return None;
    };
    for hint in hints_at(&problem.index.no, a) {
        if let Hint::Nth(k) = hint {
            if let Some(clause) = problem.formula.clauses.get(*k) {
                if begins_with(clause, a) {
                    return Some(*k);
                }
            }
        }
    }
    None
}

/// Brings the mark back to the first clause that is reached by a decision which it doesn't know yet.
fn reach(problem: &Problem<'_>, trail: &Trail, mark: &mut Mark) {
    let all = trail.decisions.len();
    for row in mark.done..all {
        if let Some(Decision::Atom(a, true)) = trail.decisions.get(row) {
            if let Some(k) = first_of(problem, *a) {
                mark.reached = mark.reached.min(k);
            }
        }
    }
    mark.done = all;
}

/// An undecided atom of the clause that is reached, isn't met and stands last in the program: clauses stand from the last block back.
/// So the search goes back from the claim, and splits nothing that it doesn't need. The mark keeps the clause: each one before it that
/// is reached is met, and stays so.
fn last_reached(problem: &Problem<'_>, trail: &Trail, p: &Probe, mark: &mut Mark) -> Option<u32> {
    reach(problem, trail, mark);
    let f = problem.formula;
    for k in mark.reached..f.clauses.len() {
        let clause = &f.clauses[k];
        if is_reached(f, trail, clause) && !is_met(trail, p, clause) {
            if let Some(a) = undecided_in(trail, clause) {
                mark.reached = k;
                return Some(a);
            }
        }
    }
    mark.reached = f.clauses.len();
    None
}

/// An undecided atom of the first clause that isn't met. The mark keeps the clause: each one before it is met, and stays so.
fn first_unmet(f: &Clauses, trail: &Trail, p: &Probe, mark: &mut Mark) -> Option<u32> {
    for k in mark.unmet.max(mark.clause)..f.clauses.len() {
        let clause = &f.clauses[k];
        if !is_met(trail, p, clause) {
            if let Some(a) = undecided_in(trail, clause) {
                mark.unmet = k;
                return Some(a);
            }
        }
    }
    mark.unmet = f.clauses.len();
    None
}

/// A candidate outside the set in the first clause that the path doesn't make true, where each clause is met: where it is true, what it
/// guards is decided next, and where it is false, each of its clauses is true. So each such candidate is decided once, behind all that
/// must be met without it. The mark keeps the clause.
fn first_absent(f: &Clauses, trail: &Trail, p: &Probe, mark: &mut Mark) -> Option<u32> {
    for k in mark.untrue.max(mark.clause)..f.clauses.len() {
        let clause = &f.clauses[k];
        if !has_true(trail, clause) {
            if let Some(a) = assumed_in(trail, p, clause) {
                mark.untrue = k;
                return Some(a);
            }
        }
    }
    mark.untrue = f.clauses.len();
    None
}

/// An undecided atom of the first clause that isn't met, or else of the first one that is met by a candidate outside the set alone.
fn first_left(f: &Clauses, trail: &Trail, p: &Probe, mark: &mut Mark) -> Option<u32> {
    match first_unmet(f, trail, p, mark) {
        Some(a) => Some(a),
        None => first_absent(f, trail, p, mark),
    }
}

/// The atom, where it is undecided and stands in a clause without a true literal.
fn if_open(problem: &Problem<'_>, trail: &Trail, a: u32) -> Option<u32>
    ensures { IfSome result (λ a. IsOpenAt trail.now.decisions.items (map (λ c. c.items) problem.now.formula.now.clauses.items) a) }
{
    if is_decided(trail, a as usize) {
        return None;
    }
    let yes = open_with(
        problem.formula,
        trail,
        hints_at(&problem.index.yes, a as usize),
        a,
    );
    let no = open_with(
        problem.formula,
        trail,
        hints_at(&problem.index.no, a as usize),
        a,
    );
    if yes.is_some() || no.is_some() {
        Some(a)
    } else {
        None
    }
}

/// An undecided atom of an open clause, chosen by a look ahead, or else of the last one of the program that is reached, or of the
/// first one; none where there is no such clause, or where there are no looks. Clauses that a candidate outside the set may meet come
/// behind all others. Of the mark it changes what is kept for the next look alone.
pub fn suggest(problem: &Problem<'_>, trail: &Trail, p: &mut Probe, mark: &mut Mark) -> Option<u32>
    ensures stands { IfSome result (λ a. IsOpenAt trail.now.decisions.items (map (λ c. c.items) problem.now.formula.now.clauses.items) a) }
    ensures row { mark.new.row ≡ mark.old.row }
    ensures place { mark.new.place ≡ mark.old.place }
    ensures clause { mark.new.clause ≡ mark.old.clause }
    ensures atom { mark.new.atom ≡ mark.old.atom }
{
    if !p.looks {
        return None;
    }
    let mut look = *mark;
    let found = match candidate(problem, trail, p, &mut look) {
        Some(a) => Some(a),
        None => match last_reached(problem, trail, p, &mut look) {
            Some(a) => Some(a),
            None => first_left(problem.formula, trail, p, &mut look),
        },
    };
    mark.look = look.look;
    mark.top = look.top;
    mark.from = look.from;
    mark.done = look.done;
    mark.reached = look.reached;
    mark.unmet = look.unmet;
    mark.untrue = look.untrue;
    match found {
        Some(a) => if_open(problem, trail, a),
        None => None,
    }
}
