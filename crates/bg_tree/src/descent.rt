//! A walk down to a path that decides every atom, along values that were proposed.
ghost use Rattle.std.specs.Prelude.{◌≡◌, ◌⊎◌, true, false, length, IfOk, OnOk, IfSome};
ghost use Rattle.bg_point.specs.Points.{target_of};
ghost use Rattle.bg_formula.specs.Formulas.{formula_of, is_whole};
ghost use Rattle.bg_cert.specs.declared.cert.Decision.TheVariants.{AtMost};
ghost use Rattle.bg_cert.specs.Walks.{has};
ghost use Rattle.bg_pick.specs.Index.{IsIndex};
ghost use Rattle.bg_pick.specs.Marks.{IsMark};
ghost use Rattle.bg_pick.specs.Picks.{MaySplit, IsComplete};
ghost use Rattle.bg_pick.specs.Problems.{formula_in, set_in};
ghost use Rattle.bg_tree.specs.Targets.{targets_in};
ghost use Rattle.bg_cert.specs.Certs.{root};
ghost use Rattle.bg_tree.specs.Ways.{IsWay};
ghost use Rattle.bg_tree.specs.Trees.{IsOutcome};
ghost use Rattle.bg_tree.specs.Descents.{IsDescent, IsTurn};

use crate::outcome::{Budget, End, Halt, Outcome, outcome_of};
use crate::settle::settle;
use bg_cert::{Decision, Trail, decide, first_trail};
use bg_formula::Clauses;
use bg_pick::{Guide, Pick, Probe, Problem, first_guide, index_of, new_probe, next_at};
use bg_point::Gap;
use std::alloc::{AllocError, Global};

/// How many bounds a walk may decide.
const BOUNDS: usize = 200;

/// Values that were proposed, of atoms and of terms.
#[derive(Clone, Copy)]
pub struct Values<'a> {
    pub atoms: &'a [bool],
    pub terms: &'a [i128],
}

/// A walk: its path, and how far the path's clauses were looked at.
#[derive(Drop)]
pub struct Descent {
    pub trail: Trail,
    pub guide: Guide,
}

/// What a turn of a walk comes to: it goes on, something is false, or nothing is left to decide.
#[derive(Drop)]
pub enum Turn {
    On,
    Lost,
    Ended(Halt),
}

/// The value that was proposed for an atom.
fn sign_of(values: Values<'_>, a: usize) -> bool {
    match values.atoms.get(a) {
        Some(s) => *s,
        None => false,
    }
}

/// The side of a gap on which the value lies that was proposed for its term.
fn side_of(values: Values<'_>, gap: &Gap) -> Decision
    ensures { result ≡ AtMost gap.now.variable gap.now.below true ⊎ result ≡ AtMost gap.now.variable gap.now.below false }
{
    let is_low = match values.terms.get(gap.variable as usize) {
        Some(z) => *z <= gap.below,
        None => true,
    };
    Decision::AtMost(gap.variable, gap.below, is_low)
}

/// A turn at a path that decides every atom: what its rows tell.
fn finish(
    alloc: Global,
    problem: &Problem<'_>,
    d: &mut Descent,
    values: Values<'_>,
    rows: u32,
) -> Result<Turn, AllocError>
    requires whole { is_whole (formula_in problem.now) ≡ true }
    requires sized { length d.old.trail.counts.items ≡ length (formula_in problem.now).atoms }
    requires way { IsWay (targets_in problem.now) (formula_in problem.now) (set_in problem.now) (root (formula_in problem.now)) d.old.trail.decisions.items }
    requires complete { IsComplete (formula_in problem.now) (set_in problem.now) d.old.trail.decisions.items }
    requires mark { IsMark (formula_in problem.now) (set_in problem.now) problem.now.index.now d.old.trail.decisions.items d.old.guide.mark }
    ensures { IfOk result (λ turn. IsTurn (targets_in problem.now) (formula_in problem.now) (set_in problem.now) problem.now.index.now rows d.new turn) }
{
    match settle(alloc, problem.formula, problem.targets, &d.trail, rows)? {
        End::Refuted(_) => Ok(Turn::Lost),
        End::Split(kept) => {
            decide(&mut d.trail, side_of(values, &kept.gap))?;
            Ok(Turn::On)
        }
        End::Halted(halt) => Ok(Turn::Ended(halt)),
    }
}

/// A turn at a path where an atom may be split: it goes on with the value that was proposed.
fn advance(
    problem: &Problem<'_>,
    d: &mut Descent,
    values: Values<'_>,
    a: usize,
) -> Result<(), AllocError>
    requires named { IsIndex (formula_in problem.now) (set_in problem.now) problem.now.index.now }
    requires sized { length d.old.trail.counts.items ≡ length (formula_in problem.now).atoms }
    requires way { IsWay (targets_in problem.now) (formula_in problem.now) (set_in problem.now) (root (formula_in problem.now)) d.old.trail.decisions.items }
    requires may { MaySplit (formula_in problem.now) (set_in problem.now) d.old.trail.decisions.items a }
    requires mark { IsMark (formula_in problem.now) (set_in problem.now) problem.now.index.now d.old.trail.decisions.items d.old.guide.mark }
    ensures { OnOk result (IsDescent (targets_in problem.now) (formula_in problem.now) (set_in problem.now) problem.now.index.now d.new) }
{
    decide(&mut d.trail, Decision::Atom(a, sign_of(values, a)))?;
    Ok(())
}

/// One turn of a walk.
fn step_down(
    alloc: Global,
    problem: &Problem<'_>,
    d: &mut Descent,
    probe: &mut Probe,
    values: Values<'_>,
    rows: u32,
) -> Result<Turn, AllocError>
    requires whole { is_whole (formula_in problem.now) ≡ true }
    requires named { IsIndex (formula_in problem.now) (set_in problem.now) problem.now.index.now }
    requires descends { IsDescent (targets_in problem.now) (formula_in problem.now) (set_in problem.now) problem.now.index.now d.old }
    ensures { IfOk result (λ turn. IsTurn (targets_in problem.now) (formula_in problem.now) (set_in problem.now) problem.now.index.now rows d.new turn) }
{
    match next_at(problem, &d.trail, &mut d.guide.mark, probe) {
        Pick::Close(_) => Ok(Turn::Lost),
        Pick::Split(choice) => {
            advance(problem, d, values, choice.atom)?;
            Ok(Turn::On)
        }
        Pick::Leaf => finish(alloc, problem, d, values, rows),
    }
}

/// The walk from the root.
fn walked(
    alloc: Global,
    problem: &Problem<'_>,
    probe: &mut Probe,
    budget: Budget,
    values: Values<'_>,
) -> Result<Option<Outcome>, AllocError>
    requires whole { is_whole (formula_in problem.now) ≡ true }
    requires named { IsIndex (formula_in problem.now) (set_in problem.now) problem.now.index.now }
    ensures { IfOk result (λ found. IfSome found (λ outcome. IsOutcome (targets_in problem.now) (formula_in problem.now) (set_in problem.now) budget outcome)) }
{
    let atoms = problem.formula.atoms.len();
    let mut d = Descent {
        trail: first_trail(alloc, atoms)?,
        guide: first_guide(alloc),
    };
    let mut left = atoms.saturating_add(BOUNDS);
    while left > 0 {
        match step_down(alloc, problem, &mut d, probe, values, budget.rows)? {
            Turn::On => {}
            Turn::Lost => return Ok(None),
            Turn::Ended(halt) => return Ok(Some(outcome_of(d.trail.decisions, halt))),
        }
        left -= 1;
    }
    Ok(None)
}

/// Walks down from the root along values that were proposed, by the search's own rules, without looks ahead and without a way back: to a
/// complete leaf or to why the search ends there; or nothing, where a clause, a unit of the set or the rows are false on the way. A point
/// has each term as near to its target as may be: the targets are any numbers of 128 bits, by the terms' numbers, 0 behind the list's end.
///
/// Only want of memory is an error.
pub fn follow(
    alloc: Global,
    f: &Clauses,
    set: &[bool],
    targets: &[i128],
    budget: Budget,
    values: Values<'_>,
) -> Result<Option<Outcome>, AllocError>
    requires { is_whole (formula_of f.now) ≡ true }
    ensures { IfOk result (λ found. IfSome found (λ outcome. IsOutcome (target_of targets.now) (formula_of f.now) (has set.now) budget outcome)) }
{
    let index = index_of(alloc, f, set)?;
    let mut probe = new_probe(alloc, f, set)?;
    probe.looks = false;
    let problem = Problem {
        formula: f,
        set,
        index: &index,
        targets,
    };
    walked(alloc, &problem, &mut probe, budget, values)
}
