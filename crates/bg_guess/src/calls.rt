//! Which procedures are called from elsewhere, and which numbers clauses have.
ghost use Rattle.std.specs.Prelude.{◌≡◌, length, map, IfOk};
ghost use Rattle.bg_ast.specs.Views.{clause_of, st_of, sts_in, arms_from, arm_view, proc_of, impl_of};
ghost use Rattle.bg_guess.specs.Calls as s;

use bg_ast::resolved::{Arm, Clause, Implementation, Procedure, Stmt};
use std::alloc::{AllocError, Global};

/// Marks at procedures that another one calls, and at those that have an implementation; and a number above those of the clauses.
#[derive(Drop)]
pub struct Found {
    pub called: Vec<bool>,
    pub implemented: Vec<bool>,
    pub above: usize,
}

/// Marks a number, where there is such a one.
fn mark(marks: &mut [bool], k: usize)
    ensures { marks.new ≡ s.marked k marks.old }
{
    if k < marks.len() {
        marks[k] = true;
    }
}

/// Marks what is called, where another one calls it.
fn mark_call(marks: &mut [bool], caller: u32, callee: u32)
    ensures { marks.new ≡ s.marked_call caller callee marks.old }
{
    if callee != caller {
        mark(marks, callee as usize);
    }
}

/// A number above this one and above those of the clauses.
fn above(n: usize, clauses: &[Clause]) -> usize
    ensures { result ≡ s.above n (map clause_of clauses.now) }
{
    let mut most = n;
    for k in clauses {
        most = most.max(k.id as usize + 1);
    }
    most
}

/// Notes a statement of an implementation of this procedure.
#[tactic(auto, using(crate::proofs::CallForms::call_forms))]
#[cycle(note_stmts)]
fn note_stmt(called: &mut Vec<bool>, most: usize, own: u32, a: &Stmt) -> usize
    ensures called { called.new.items ≡ s.mark_st own (st_of a.now) called.old.items }
    ensures above { result ≡ s.above_st most (st_of a.now) }
{
    match a {
        Stmt::Assert(k) => above(most, std::slice::from_ref(k)),
        Stmt::Invoke(k) => {
            mark_call(called, own, k.procedure);
            most
        }
        Stmt::If(_, arms, otherwise) => {
            let inside = note_arms(called, most, own, arms);
            note_stmts(called, inside, own, otherwise)
        }
        Stmt::While(_, _, _, invariants, body) => {
            note_stmts(called, above(most, invariants), own, body)
        }
        _ => most,
    }
}

/// Notes arms.
#[tactic(auto, using(crate::proofs::CallForms::call_forms))]
#[cycle(note_stmts)]
fn note_arms(called: &mut Vec<bool>, most: usize, own: u32, arms: &[Arm]) -> usize
    ensures called { called.new.items ≡ s.mark_arms own (arms_from (map arm_view arms.now)) called.old.items }
    ensures above { result ≡ s.above_arms most (arms_from (map arm_view arms.now)) }
{
    let mut at = most;
    for a in arms {
        at = note_stmts(called, at, own, &a.body);
    }
    at
}

/// Marks what statements of an implementation of this procedure call, and answers a number above those of their clauses.
#[tactic(auto, using(crate::proofs::CallForms::call_forms))]
#[cycle(note_stmts)]
fn note_stmts(called: &mut Vec<bool>, most: usize, own: u32, ss: &[Stmt]) -> usize
    ensures called { called.new.items ≡ s.mark_sts own (sts_in ss.now) called.old.items }
    ensures above { result ≡ s.above_sts most (sts_in ss.now) }
{
    let mut at = most;
    for a in ss {
        at = note_stmt(called, at, own, a);
    }
    at
}

/// A number above those of the clauses of procedures.
fn above_procedures(procedures: &[Procedure]) -> usize
    ensures { result ≡ s.above_procs 0 (map proc_of procedures.now) }
{
    let mut most = 0;
    for q in procedures {
        most = above(above(most, &q.requires_), &q.ensures_);
    }
    most
}

/// What is found in these procedures and implementations.
pub fn search_all(
    alloc: Global,
    procedures: &[Procedure],
    implementations: &[Implementation],
) -> Result<Found, AllocError>
    ensures called { IfOk result (λ f. f.called.items ≡ s.marks 0 (length procedures.now) (s.called (map impl_of implementations.now))) }
    ensures implemented { IfOk result (λ f. f.implemented.items ≡ s.marks 0 (length procedures.now) (s.implemented (map impl_of implementations.now))) }
    ensures above { IfOk result (λ f. f.above ≡ s.above_impls (s.above_procs 0 (map proc_of procedures.now)) (map impl_of implementations.now)) }
{
    let mut called = vec![in alloc; false; procedures.len()]?;
    let mut implemented = vec![in alloc; false; procedures.len()]?;
    let mut above = above_procedures(procedures);
    for m in implementations {
        above = note_stmts(&mut called, above, m.procedure, &m.body);
        mark(&mut implemented, m.procedure as usize);
    }
    Ok(Found {
        called,
        implemented,
        above,
    })
}
