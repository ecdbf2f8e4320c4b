//! The search.
ghost use Rattle.std.specs.Prelude.{◌≡◌, ◌<◌, ◌*◌, ◌^◌, ◌∷◌, [], IfOk, true, false};
ghost use Rattle.bg_point.specs.Points.{target_of};
ghost use Rattle.bg_formula.specs.Formulas.{Formula, formula_of, is_whole};
ghost use Rattle.bg_cert.specs.Certs.{root};
ghost use Rattle.bg_cert.specs.Walks.{IsWalk, atoms_on, stack_of, has};
ghost use Rattle.bg_tree.specs.declared.book.Head.TheVariants.{First};
ghost use Rattle.bg_pick.specs.Index.{IsIndex};
ghost use Rattle.bg_pick.specs.Problems.{formula_in, set_in};
ghost use Rattle.bg_tree.specs.Targets.{targets_in};
ghost use Rattle.bg_tree.specs.Trees.{IsOutcome};

use crate::book::{Book, Head};
use crate::outcome::{Budget, Outcome, Why, outcome_of};
use crate::step::{Aids, Search, step};
use crate::whole::whole;
use bg_cert::first_walk;
use bg_conflict::new_ledger;
use bg_formula::Clauses;
use bg_pick::{Problem, first_guide, index_of, new_probe};
use std::alloc::{AllocError, Global};

/// The search at the root, over so many atoms, where so many nodes may count.
fn first_search(alloc: Global, atoms: usize, nodes: u32) -> Result<Search, AllocError>
    ensures walks { IfOk result (λ s. IsWalk s.walk) }
    ensures sized { IfOk result (λ s. atoms_on s.walk ≡ atoms) }
    ensures stack { IfOk result (λ s. (f : Formula) → stack_of f s.walk ≡ root f ∷ []) }
    ensures parts { IfOk result (λ s. s.parts.items ≡ []) }
    ensures inner { IfOk result (λ s. s.inner ≡ 20 * nodes) }
    ensures left { IfOk result (λ s. s.book.left ≡ nodes) }
    ensures small { IfOk result (λ s. s.book.left < 2 ^ 32) }
    ensures head { IfOk result (λ s. s.book.head ≡ First) }
    ensures owed { IfOk result (λ s. s.book.owed.items ≡ []) }
    ensures seen { IfOk result (λ s. s.seen ≡ false) }
{
    let inner = u64::from(nodes) * 20;
    let walk = first_walk(alloc, atoms)?;
    Ok(Search {
        walk,
        parts: Vec::new(alloc),
        inner,
        book: Book {
            left: nodes,
            head: Head::First,
            owed: Vec::new(alloc),
        },
        seen: false,
    })
}

/// The search, where the index of the formula is made.
fn searched(
    alloc: Global,
    problem: &Problem<'_>,
    budget: Budget,
    aids: &mut Aids,
) -> Result<Outcome, AllocError>
    requires whole { is_whole (formula_in problem.now) ≡ true }
    requires named { IsIndex (formula_in problem.now) (set_in problem.now) problem.now.index.now }
    ensures { IfOk result (λ outcome. IsOutcome (targets_in problem.now) (formula_in problem.now) (set_in problem.now) budget outcome) }
{
    let mut s = first_search(alloc, problem.formula.atoms.len(), budget.nodes)?;
    let mut guide = first_guide(alloc);
    while s.walk.is_open {
        if let Some(halt) = step(alloc, problem, &mut s, &mut guide, aids, budget.rows)? {
            return Ok(outcome_of(s.walk.trail.decisions, halt));
        }
    }
    if s.seen {
        Ok(Outcome::Unknown(Why::Nodes(s.parts, budget.nodes)))
    } else {
        Ok(Outcome::Closed(whole(alloc, s.parts)?))
    }
}

/// Searches the clauses with the units of the set: for a certificate, for a point at which they
/// hold, or until a budget is used up or an operation leaves 128 bits. A node takes time for the
/// clauses of its last decision's atom, for what the path's mark passes, and where no clause is a
/// unit for a look ahead and an elimination of the nearest rows beside a row that is new. The budget
/// of rows counts where a path decides every atom. A point has each term as near to its target as may be: the targets are any numbers
/// of 128 bits, one for each term by its number, 0 for a term behind the list's end.
pub fn search(
    alloc: Global,
    f: &Clauses,
    set: &[bool],
    targets: &[i128],
    budget: Budget,
) -> Result<Outcome, AllocError>
    requires { is_whole (formula_of f.now) ≡ true }
    ensures { IfOk result (λ outcome. IsOutcome (target_of targets.now) (formula_of f.now) (has set.now) budget outcome) }
{
    let index = index_of(alloc, f, set)?;
    let mut aids = Aids {
        probe: new_probe(alloc, f, set)?,
        ledger: new_ledger(alloc, f)?,
    };
    let problem = Problem {
        formula: f,
        set,
        index: &index,
        targets,
    };
    searched(alloc, &problem, budget, &mut aids)
}
