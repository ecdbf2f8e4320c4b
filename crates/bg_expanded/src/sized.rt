//! Nodes of statements, in which applications count what is known of the functions' bodies.
ghost use Rattle.std.specs.Prelude.{◌+◌, get_or, map, OnOk};
ghost use Rattle.bg_ast.specs.Views.{ex_of, exs_in, clause_of, guard_of, bracket_of, target_of, call_of, st_of, sts_in, arms_from, arm_view};
ghost use Rattle.bg_places.specs.Counts.{nodes, nodes_of, clause_nodes, guard_nodes, index_nodes, target_nodes, st_nodes, sts_nodes, arms_nodes};
ghost use Rattle.bg_opened.specs.Written.{all_opened, opened_clause, opened_guard, opened_bracket, opened_target, opened_st, opened_sts, opened_arms};
ghost use Rattle.bg_expanded.specs.Bodies.{AddsNodes};

use crate::count::{Count, add_own, read_at};
use crate::nodes::{add, add_all};
use bg_ast::resolved::{Arm, Call, Clause, Expr, Guard, Indices, Stmt, Target};
use std::alloc::AllocError;

/// Adds the nodes of an expression.
fn add_expr(count: &mut Count, table: &[Option<Count>], e: &Expr) -> Result<(), AllocError>
    ensures { OnOk result (AddsNodes table.now count.old count.new (λ o. nodes (o (ex_of e.now)))) }
{
    add(count, table, 1, e)
}

/// Adds the nodes of expressions.
pub fn add_exprs(count: &mut Count, table: &[Option<Count>], es: &[Expr]) -> Result<(), AllocError>
    ensures { OnOk result (AddsNodes table.now count.old count.new (λ o. nodes_of (all_opened o (exs_in es.now)))) }
{
    add_all(count, table, 1, es)
}

/// Adds the nodes of what clauses say.
pub fn add_clauses(
    count: &mut Count,
    table: &[Option<Count>],
    clauses: &[Clause],
) -> Result<(), AllocError>
    ensures { OnOk result (AddsNodes table.now count.old count.new (λ o. clause_nodes (map (opened_clause o) (map clause_of clauses.now)))) }
{
    for k in clauses {
        add_expr(count, table, &k.formula)?;
    }
    Ok(())
}

/// Adds the nodes of a guard.
fn add_guard(count: &mut Count, table: &[Option<Count>], guard: &Guard) -> Result<(), AllocError>
    ensures { OnOk result (AddsNodes table.now count.old count.new (λ o. guard_nodes (opened_guard o (guard_of guard.now)))) }
{
    match guard {
        Guard::Star => Ok(()),
        Guard::Test(e) => add_expr(count, table, e),
    }
}

/// Adds the nodes of the indices of a left side.
fn add_indices(
    count: &mut Count,
    table: &[Option<Count>],
    brackets: &[Indices],
) -> Result<(), AllocError>
    ensures { OnOk result (AddsNodes table.now count.old count.new (λ o. index_nodes (map (opened_bracket o) (map bracket_of brackets.now)))) }
{
    for bracket in brackets {
        add_exprs(count, table, &bracket.indices)?;
    }
    Ok(())
}

/// Adds the nodes of left sides.
fn add_targets(
    count: &mut Count,
    table: &[Option<Count>],
    targets: &[Target],
) -> Result<(), AllocError>
    ensures { OnOk result (AddsNodes table.now count.old count.new (λ o. target_nodes (map (opened_target o) (map target_of targets.now)))) }
{
    for target in targets {
        add_indices(count, table, &target.brackets)?;
    }
    Ok(())
}

/// Adds the nodes of a call: those of its arguments, and of the procedure's clauses.
fn add_call(
    count: &mut Count,
    table: &[Option<Count>],
    sizes: &[u64],
    k: &Call,
) -> Result<(), AllocError>
    ensures { OnOk result (AddsNodes table.now count.old count.new (λ o. nodes_of (all_opened o (call_of k.now).args) + get_or sizes.now k.now.procedure 0)) }
{
    add_own(count, read_at(sizes, k.procedure as usize));
    add_exprs(count, table, &k.args)
}

/// Adds the nodes of a statement, where the procedures' clauses have these sizes.
#[cycle(add_stmts)]
fn add_stmt(
    count: &mut Count,
    table: &[Option<Count>],
    sizes: &[u64],
    s: &Stmt,
) -> Result<(), AllocError>
    ensures { OnOk result (AddsNodes table.now count.old count.new (λ o. st_nodes sizes.now (opened_st o (st_of s.now)))) }
{
    match s {
        Stmt::Assert(k) => add_expr(count, table, &k.formula),
        Stmt::Assume(e) => add_expr(count, table, e),
        Stmt::Assign(_, targets, values) => {
            add_targets(count, table, targets)?;
            add_exprs(count, table, values)
        }
        Stmt::Invoke(k) => add_call(count, table, sizes, k),
        Stmt::If(_, arms, otherwise) => {
            add_arms(count, table, sizes, arms)?;
            add_stmts(count, table, sizes, otherwise)
        }
        Stmt::While(_, _, guard, invariants, body) => {
            add_guard(count, table, guard)?;
            add_clauses(count, table, invariants)?;
            add_stmts(count, table, sizes, body)
        }
        _ => Ok(()),
    }
}

/// Adds the nodes of arms.
#[cycle(add_stmts)]
fn add_arms(
    count: &mut Count,
    table: &[Option<Count>],
    sizes: &[u64],
    arms: &[Arm],
) -> Result<(), AllocError>
    ensures { OnOk result (AddsNodes table.now count.old count.new (λ o. arms_nodes sizes.now (opened_arms o (arms_from (map arm_view arms.now))))) }
{
    for arm in arms {
        add_guard(count, table, &arm.guard)?;
        add_stmts(count, table, sizes, &arm.body)?;
    }
    Ok(())
}

/// Adds the nodes of statements.
#[cycle(add_stmts)]
pub fn add_stmts(
    count: &mut Count,
    table: &[Option<Count>],
    sizes: &[u64],
    ss: &[Stmt],
) -> Result<(), AllocError>
    ensures { OnOk result (AddsNodes table.now count.old count.new (λ o. sts_nodes sizes.now (opened_sts o (sts_in ss.now)))) }
{
    for s in ss {
        add_stmt(count, table, sizes, s)?;
    }
    Ok(())
}
