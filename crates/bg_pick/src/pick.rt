//! What to do next at a path.
ghost use Rattle.std.specs.Prelude.{◌≡◌, ◌<◌, ◌++◌, ◌∷◌, [], length, false, true, IfOk, OnOk, MatchOption};
ghost use Rattle.bg_formula.specs.Formulas.{is_whole};
ghost use Rattle.bg_cert.specs.Certs.{node_of, closes};
ghost use Rattle.bg_cert.specs.Causes.{any_false, may_split, all_decided, units_of};
ghost use Rattle.bg_cert.specs.Walks.{path_of};
ghost use Rattle.bg_cert.specs.declared.cert.Decision.TheVariants.{Atom};
ghost use Rattle.bg_pick.specs.Index.{IsIndex};
ghost use Rattle.bg_pick.specs.Marks.{IsMark, IsReady};
ghost use Rattle.bg_pick.specs.Picks.{IsPick};
ghost use Rattle.bg_pick.specs.Problems.{formula_in, set_in};

use crate::hint::Hint;
use crate::look::suggest;
use crate::mark::{Mark, first_false, free_from, next_unit, open_from};
use crate::probe::Probe;
use crate::problem::Problem;
use crate::rows::row_at;
use bg_cert::{Decision, Node, Trail, decide, undo_to};
use std::alloc::AllocError;

/// An atom to split, and whether it is a unit's.
#[derive(Clone, Copy)]
pub struct Choice {
    pub atom: usize,
    pub is_forced: bool,
}

/// What to do next at a path: close it by a leaf, split an atom, or nothing is left.
#[derive(Drop)]
pub enum Pick {
    Close(Node),
    Split(Choice),
    Leaf,
}

/// A leaf that closes the path: a clause or a unit that is false.
fn pick_leaf(problem: &Problem<'_>, trail: &Trail, mark: &Mark) -> Option<Node>
    requires { IsReady (formula_in problem.now) (set_in problem.now) problem.now.index.now trail.now.decisions.items mark.now }
    ensures { MatchOption result (any_false trail.now.decisions.items ((formula_in problem.now).clauses ++ units_of (formula_in problem.now) (set_in problem.now)) ≡ false) (λ n. closes (formula_in problem.now) (set_in problem.now) (path_of (formula_in problem.now) trail.now.decisions.items) (node_of n) ≡ true) }
{
    let hints = row_at(problem.index, trail, trail.decisions.len());
    match first_false(problem.formula, problem.set, trail, hints) {
        Some(Hint::Nth(k)) => Some(Node::Clause(k as u128)),
        Some(Hint::Member(c)) => Some(Node::Unit(c as u128)),
        None => None,
    }
}

/// An atom to split where nothing is false: a unit's where there is one, else one of a clause
/// without a true literal where there is one.
fn pick_atom(
    problem: &Problem<'_>,
    trail: &Trail,
    mark: &mut Mark,
    probe: &mut Probe,
) -> Option<Choice>
    requires fine { any_false trail.now.decisions.items ((formula_in problem.now).clauses ++ units_of (formula_in problem.now) (set_in problem.now)) ≡ false }
    requires whole { is_whole (formula_in problem.now) ≡ true }
    requires kept { IsMark (formula_in problem.now) (set_in problem.now) problem.now.index.now trail.now.decisions.items mark.old }
    ensures keeps { IsMark (formula_in problem.now) (set_in problem.now) problem.now.index.now trail.now.decisions.items mark.new }
    ensures split { MatchOption result (all_decided (length (formula_in problem.now).atoms) trail.now.decisions.items ≡ true) (λ c. may_split (length (formula_in problem.now).atoms) c.atom trail.now.decisions.items ((formula_in problem.now).clauses ++ units_of (formula_in problem.now) (set_in problem.now)) ≡ true) }
{
    if let Some(a) = next_unit(problem, trail, mark) {
        return Some(Choice {
            atom: a as usize,
            is_forced: true,
        });
    }
    if let Some(a) = suggest(problem, trail, probe, mark) {
        return Some(Choice {
            atom: a as usize,
            is_forced: false,
        });
    }
    if let Some((k, a)) = open_from(trail, &problem.formula.clauses, mark.clause) {
        mark.clause = k;
        return Some(Choice {
            atom: a as usize,
            is_forced: false,
        });
    }
    mark.clause = problem.formula.clauses.len();
    if let Some(a) = free_from(trail, problem.formula.atoms.len(), mark.atom) {
        mark.atom = a;
        return Some(Choice {
            atom: a,
            is_forced: false,
        });
    }
    mark.atom = problem.formula.atoms.len();
    None
}

/// What to do next. Takes time for the clauses of the last decision, for what the mark passes, and where no clause is a unit for
/// a look ahead.
pub fn next_at(problem: &Problem<'_>, trail: &Trail, mark: &mut Mark, probe: &mut Probe) -> Pick
    requires whole { is_whole (formula_in problem.now) ≡ true }
    requires ready { IsReady (formula_in problem.now) (set_in problem.now) problem.now.index.now trail.now.decisions.items mark.old }
    ensures keeps { IsMark (formula_in problem.now) (set_in problem.now) problem.now.index.now trail.now.decisions.items mark.new }
    ensures pick { IsPick (formula_in problem.now) (set_in problem.now) trail.now.decisions.items result }
{
    match pick_leaf(problem, trail, mark) {
        Some(node) => Pick::Close(node),
        None => match pick_atom(problem, trail, mark, probe) {
            Some(choice) => Pick::Split(choice),
            None => Pick::Leaf,
        },
    }
}

/// Whether a clause or a unit is false.
fn is_refuted(problem: &Problem<'_>, trail: &Trail, mark: &Mark) -> bool
    requires { IsReady (formula_in problem.now) (set_in problem.now) problem.now.index.now trail.now.decisions.items mark.now }
    ensures { result ≡ any_false trail.now.decisions.items ((formula_in problem.now).clauses ++ units_of (formula_in problem.now) (set_in problem.now)) }
{
    let last = row_at(problem.index, trail, trail.decisions.len());
    match first_false(problem.formula, problem.set, trail, last) {
        Some(_) => true,
        None => false,
    }
}

/// Whether a clause or a unit is false where one more atom is decided. The path stays as it is.
pub fn fails(
    problem: &Problem<'_>,
    trail: &mut Trail,
    mark: &Mark,
    a: usize,
    s: bool,
) -> Result<bool, AllocError>
    requires named { IsIndex (formula_in problem.now) (set_in problem.now) problem.now.index.now }
    requires fine { any_false trail.old.decisions.items ((formula_in problem.now).clauses ++ units_of (formula_in problem.now) (set_in problem.now)) ≡ false }
    requires mark { IsMark (formula_in problem.now) (set_in problem.now) problem.now.index.now trail.old.decisions.items mark.now }
    requires there { a < length trail.old.counts.items }
    ensures stays { OnOk result (trail.new.decisions.items ≡ trail.old.decisions.items) }
    ensures sized { OnOk result (length trail.new.counts.items ≡ length trail.old.counts.items) }
    ensures told { IfOk result (λ yes. yes ≡ any_false (trail.old.decisions.items ++ (Atom a s ∷ [])) ((formula_in problem.now).clauses ++ units_of (formula_in problem.now) (set_in problem.now))) }
{
    let depth = trail.decisions.len();
    decide(trail, Decision::Atom(a, s))?;
    let yes = is_refuted(problem, trail, mark);
    undo_to(trail, depth);
    Ok(yes)
}
