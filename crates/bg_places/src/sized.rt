//! Nodes of statements: what is left of a number behind them.
ghost use Rattle.std.specs.Prelude.{◌≡◌, ◌+◌, ◌-◌, get_or, map};
ghost use Rattle.bg_ast.specs.Views.{clause_of, guard_of, bracket_of, target_of, call_of, st_of, sts_in, arms_from, arm_view};
ghost use Rattle.bg_places.specs.Counts.{clause_nodes, guard_nodes, index_nodes, target_nodes, nodes_of, st_nodes, sts_nodes, arms_nodes};

use crate::nodes::{spend, spend_all};
use bg_ast::resolved::{Arm, Call, Clause, Guard, Indices, Stmt, Target};

/// What is left behind what clauses say.
pub fn spend_clauses(left: u32, clauses: &[Clause]) -> u32
    ensures { result ≡ left - clause_nodes (map clause_of clauses.now) }
{
    let mut rest = left;
    for k in clauses {
        rest = spend(rest, &k.formula);
    }
    rest
}

/// What is left behind a guard.
fn spend_guard(left: u32, guard: &Guard) -> u32
    ensures { result ≡ left - guard_nodes (guard_of guard.now) }
{
    match guard {
        Guard::Star => left,
        Guard::Test(e) => spend(left, e),
    }
}

/// What is left behind the indices of a left side.
fn spend_indices(left: u32, brackets: &[Indices]) -> u32
    ensures { result ≡ left - index_nodes (map bracket_of brackets.now) }
{
    let mut rest = left;
    for bracket in brackets {
        rest = spend_all(rest, &bracket.indices);
    }
    rest
}

/// What is left behind left sides.
fn spend_targets(left: u32, targets: &[Target]) -> u32
    ensures { result ≡ left - target_nodes (map target_of targets.now) }
{
    let mut rest = left;
    for target in targets {
        rest = spend_indices(rest, &target.brackets);
    }
    rest
}

/// The number in this place, or 0.
pub fn size_at(sizes: &[u32], k: u32) -> u32
    ensures { result ≡ get_or sizes.now k 0 }
{
    match sizes.get(k as usize) {
        None => 0,
        Some(size) => *size,
    }
}

/// What is left behind a call.
fn spend_call(left: u32, sizes: &[u32], k: &Call) -> u32
    ensures { result ≡ left - (nodes_of (call_of k.now).args + get_or sizes.now k.now.procedure 0) }
{
    spend_all(left, &k.args).saturating_sub(size_at(sizes, k.procedure))
}

/// What is left behind a statement, where the procedures' clauses have these sizes.
#[cycle(spend_stmts)]
#[tactic(auto, using(crate::proofs::SizedForms::node_forms))]
fn spend_stmt(left: u32, sizes: &[u32], s: &Stmt) -> u32
    ensures { result ≡ left - st_nodes sizes.now (st_of s.now) }
{
    match s {
        Stmt::Assert(k) => spend(left, &k.formula),
        Stmt::Assume(e) => spend(left, e),
        Stmt::Assign(_, targets, values) => spend_all(spend_targets(left, targets), values),
        Stmt::Invoke(k) => spend_call(left, sizes, k),
        Stmt::If(_, arms, otherwise) => {
            spend_stmts(spend_arms(left, sizes, arms), sizes, otherwise)
        }
        Stmt::While(_, _, guard, invariants, body) => spend_stmts(
            spend_clauses(spend_guard(left, guard), invariants),
            sizes,
            body,
        ),
        _ => left,
    }
}

/// What is left behind arms.
#[cycle(spend_stmts)]
fn spend_arms(left: u32, sizes: &[u32], arms: &[Arm]) -> u32
    ensures { result ≡ left - arms_nodes sizes.now (arms_from (map arm_view arms.now)) }
{
    let mut rest = left;
    for arm in arms {
        let guarded = spend_guard(rest, &arm.guard);
        rest = spend_stmts(guarded, sizes, &arm.body);
    }
    rest
}

/// What is left behind statements.
#[cycle(spend_stmts)]
pub fn spend_stmts(left: u32, sizes: &[u32], ss: &[Stmt]) -> u32
    ensures { result ≡ left - sts_nodes sizes.now (sts_in ss.now) }
{
    let mut rest = left;
    for s in ss {
        rest = spend_stmt(rest, sizes, s);
    }
    rest
}
