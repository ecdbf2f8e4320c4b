//! What is kept of statements.
ghost use Rattle.std.specs.Prelude.{◌≡◌, ◌++◌, [], ◌∷◌, drop, map, IfOk, OnOk};
ghost use Rattle.bg_text.specs.Trees as t;
ghost use Rattle.bg_text.specs.Views as v;
ghost use Rattle.bg_text.specs.Views.{option_of as optional};
ghost use Rattle.bg_ast.specs.Views.{candidate_of, clause_of, st_of, sts_in, arms_from, arm_view};
ghost use Rattle.bg_keep.specs.Guesses.{names_of};
ghost use Rattle.bg_keep.specs.Told as s;
ghost use Rattle.bg_keep.specs.Views.{listed};

use crate::clauses::{kept_clause, kept_clauses};
use crate::guesses::Names;
use bg_ast::resolved::{Arm, Clause, Stmt};
use bg_base::{CandId, Pos};
use bg_text::{TreeArm, TreeClause, TreeStmt};
use bg_words::CandSet;
use std::alloc::{AllocError, Global};

/// The candidate of an assertion.
fn candidate_in(b: &Stmt) -> Option<CandId>
    ensures { optional candidate_of result ≡ s.candidate_in (st_of b.now) }
{
    match b {
        Stmt::Assert(k) => k.candidate,
        _ => None,
    }
}

/// The invariants of a loop.
fn invariants_in(b: &Stmt) -> &[Clause]
    ensures { map clause_of result.now ≡ s.invariants_in (st_of b.now) }
{
    match b {
        Stmt::While(_, _, _, invariants, _) => invariants,
        _ => &[],
    }
}

/// The arms of a conditional.
fn arms_in(b: &Stmt) -> &[Arm]
    ensures { arms_from (map arm_view result.now) ≡ s.arms_in (st_of b.now) }
{
    match b {
        Stmt::If(_, arms, _) => arms,
        _ => &[],
    }
}

/// The statements of a loop, or those behind the last `else`.
fn block_in(b: &Stmt) -> &[Stmt]
    ensures { sts_in result.now ≡ s.block_in (st_of b.now) }
{
    match b {
        Stmt::If(_, _, otherwise) => otherwise,
        Stmt::While(_, _, _, _, body) => body,
        _ => &[],
    }
}

/// The statements of the arm at this place, where there is one.
fn body_at(arms: &[Arm], at: usize) -> &[Stmt]
    ensures { sts_in result.now ≡ s.first_body (arms_from (map arm_view (drop at arms.now))) }
{
    match arms.get(at) {
        Some(a) => &a.body,
        None => &[],
    }
}

/// Adds what is kept of an assertion.
fn push_assert(
    alloc: Global,
    set: &CandSet,
    candidate: Option<CandId>,
    k: TreeClause,
    out: &mut Vec<TreeStmt>,
) -> Result<(), AllocError>
    ensures { OnOk result (map v.st_of out.new.items ≡ map v.st_of out.old.items ++ map t.Assert (s.told_clause set.now (optional candidate_of candidate) (v.clause_of k))) }
{
    if let Some(kept) = kept_clause(alloc, set, candidate, k)? {
        out.push(TreeStmt::Assert(kept))?;
    }
    Ok(())
}

/// Adds a statement.
fn push(a: TreeStmt, out: &mut Vec<TreeStmt>) -> Result<(), AllocError>
    ensures { OnOk result (map v.st_of out.new.items ≡ map v.st_of out.old.items ++ v.st_of a ∷ []) }
{
    out.push(a)?;
    Ok(())
}

/// Adds what is kept of a statement, which is taken from its place.
#[cycle(keep_stmts)]
fn push_stmt(
    alloc: Global,
    set: &CandSet,
    names: &Names<'_>,
    a: &mut TreeStmt,
    b: &Stmt,
    out: &mut Vec<TreeStmt>,
) -> Result<(), AllocError>
    ensures { OnOk result (map v.st_of out.new.items ≡ map v.st_of out.old.items ++ s.told_st set.now (names_of names.now) (v.st_of a.old) (st_of b.now)) }
{
    match std::mem::replace(a, TreeStmt::Return(Pos { line: 0, column: 0 })) {
        TreeStmt::Assert(k) => push_assert(alloc, set, candidate_in(b), k, out),
        TreeStmt::If(pos, mut arms) => {
            keep_arms(alloc, set, names, &mut arms, arms_in(b))?;
            push(TreeStmt::If(pos, arms), out)
        }
        TreeStmt::IfElse(pos, mut arms, mut otherwise) => {
            keep_arms(alloc, set, names, &mut arms, arms_in(b))?;
            keep_block(alloc, set, names, &mut otherwise, block_in(b))?;
            push(TreeStmt::IfElse(pos, arms, otherwise), out)
        }
        TreeStmt::While(pos, guard, mut invariants, mut body) => {
            let invariants = kept_clauses(alloc, set, names, invariants_in(b), &mut invariants)?;
            keep_block(alloc, set, names, &mut body, block_in(b))?;
            push(TreeStmt::While(pos, guard, invariants, body), out)
        }
        other => push(other, out),
    }
}

/// Keeps of a block what is kept.
#[cycle(keep_stmts)]
pub fn keep_block(
    alloc: Global,
    set: &CandSet,
    names: &Names<'_>,
    ss: &mut Vec<TreeStmt>,
    told: &[Stmt],
) -> Result<(), AllocError>
    ensures { OnOk result (v.sts_in ss.new.items ≡ s.told_sts set.now (names_of names.now) (v.sts_in ss.old.items) (sts_in told.now)) }
{
    let made = kept_stmts(alloc, set, names, ss, told)?;
    *ss = made;
    Ok(())
}

/// Keeps of the blocks of arms what is kept.
#[cycle(keep_stmts)]
fn keep_arms(
    alloc: Global,
    set: &CandSet,
    names: &Names<'_>,
    arms: &mut Vec<TreeArm>,
    told: &[Arm],
) -> Result<(), AllocError>
    ensures { OnOk result (v.arms_from (map v.arm_view arms.new.items) ≡ s.told_arms set.now (names_of names.now) (v.arms_from (map v.arm_view arms.old.items)) (arms_from (map arm_view told.now))) }
{
    for i in 0..arms.len() {
        keep_block(alloc, set, names, &mut arms[i].block, body_at(told, i))?;
    }
    Ok(())
}

/// What is kept of statements, which are taken from their places.
#[cycle(keep_stmts)]
fn kept_stmts(
    alloc: Global,
    set: &CandSet,
    names: &Names<'_>,
    ss: &mut [TreeStmt],
    told: &[Stmt],
) -> Result<Vec<TreeStmt>, AllocError>
    ensures { IfOk result (λ made. v.sts_in made.items ≡ s.told_sts set.now (names_of names.now) (v.sts_in ss.old) (sts_in told.now)) }
{
    let mut made = Vec::new(alloc);
    for i in 0..ss.len().min(told.len()) {
        push_stmt(alloc, set, names, &mut ss[i], &told[i], &mut made)?;
    }
    Ok(made)
}
