//! Procedures and implementations with their guesses.
ghost use Rattle.std.specs.Prelude.{◌≡◌, ◌+◌, ◌-◌, ◌^◌, get_or, map, IfOk, OnOk};
ghost use Rattle.bg_ast.specs.Views.{proc_of, impl_of};
ghost use Rattle.bg_guess.specs.Guessed as s;
ghost use Rattle.bg_guess.specs.Views.{survey_view};

use crate::claim::size;
use crate::counts::pass_stmts;
use crate::loops::{Desk, guess_stmts, push_guesses};
use crate::numbers::{add, number_at, set, sum, taken};
use crate::survey::{Survey, ensured, invariant, required};
use bg_ast::resolved::{Implementation, Procedure};
use std::alloc::{AllocError, Global};

/// What is left behind the guesses of a procedure's clauses.
pub fn pass_procedure(
    alloc: Global,
    v: &Survey<'_>,
    left: u128,
    k: usize,
    q: &Procedure,
) -> Result<u128, AllocError>
    ensures { IfOk result (λ n. n ≡ left - s.proc_count (survey_view v.now) k (proc_of q.now)) }
{
    let before = required(alloc, v, k, q)?;
    let behind = ensured(alloc, v, k, q)?;
    Ok(
        left.saturating_sub(size(&before))
            .saturating_sub(size(&behind)),
    )
}

/// What is left behind the guesses of an implementation's loops.
#[tactic(auto, using(crate::proofs::There::procedure_forms))]
pub fn pass_implementation(
    alloc: Global,
    v: &Survey<'_>,
    left: u128,
    procedures: &[Procedure],
    m: &Implementation,
) -> Result<u128, AllocError>
    ensures { IfOk result (λ n. n ≡ left - s.impl_count (survey_view v.now) (map proc_of procedures.now) (impl_of m.now)) }
{
    match procedures.get(m.procedure as usize) {
        None => Ok(left),
        Some(q) => {
            let list = invariant(alloc, v, q, m)?;
            Ok(pass_stmts(left, size(&list), &m.body))
        }
    }
}

/// How many guesses the loops of each procedure's implementations have.
pub fn loop_counts(
    alloc: Global,
    v: &Survey<'_>,
    procedures: &[Procedure],
    implementations: &[Implementation],
) -> Result<Vec<u32>, AllocError>
    ensures { IfOk result (λ made. made.items ≡ s.loop_counts (survey_view v.now) (map proc_of procedures.now) (map impl_of implementations.now)) }
{
    let mut made = vec![in alloc; 0; procedures.len()]?;
    for m in implementations {
        let count = taken(pass_implementation(alloc, v, u32::MAX as u128, procedures, m)?)?;
        add(&mut made, m.procedure as usize, count)?;
    }
    Ok(made)
}

/// The first candidates of the loops of procedures, where those of the first procedure begin at `first`.
pub fn loop_starts(
    alloc: Global,
    v: &Survey<'_>,
    loops: &[u32],
    first: u32,
    procedures: &[Procedure],
) -> Result<Vec<u32>, AllocError>
    ensures { IfOk result (λ made. made.items ≡ s.loop_starts (survey_view v.now) loops.now first 0 (map proc_of procedures.now)) }
{
    let mut made = Vec::new(alloc);
    let mut next = first;
    for k in 0..procedures.len() {
        let count = taken(pass_procedure(alloc, v, u32::MAX as u128, k, &procedures[k])?)?;
        let own = sum(next, count)?;
        made.push(own)?;
        next = sum(own, number_at(loops, k))?;
    }
    Ok(made)
}

/// Adds the guesses of a procedure's clauses, of candidates from `next` on, and answers the candidate behind them.
fn guess_procedure(
    desk: Desk,
    v: &Survey<'_>,
    k: usize,
    next: u32,
    q: &mut Procedure,
) -> Result<u32, AllocError>
    ensures { IfOk result (λ n. (proc_of q.new ≡ s.guessed_proc (survey_view v.now) desk.above next k (proc_of q.old)) × (n ≡ next + s.proc_count (survey_view v.now) k (proc_of q.old))) }
{
    let before = required(desk.alloc, v, k, q)?;
    let behind = ensured(desk.alloc, v, k, q)?;
    let middle = push_guesses(desk, q.pos, next, &before, &mut q.requires_)?;
    push_guesses(desk, q.pos, middle, &behind, &mut q.ensures_)
}

/// Adds the guesses of procedures' clauses.
pub fn guess_procedures(
    desk: Desk,
    v: &Survey<'_>,
    loops: &[u32],
    first: u32,
    procedures: &mut Vec<Procedure>,
) -> Result<(), AllocError>
    ensures { OnOk result (map proc_of procedures.new.items ≡ s.guessed_procs (survey_view v.now) loops.now desk.above first 0 (map proc_of procedures.old.items)) }
{
    let mut next = first;
    for k in 0..procedures.len() {
        let own = guess_procedure(desk, v, k, next, &mut procedures[k])?;
        next = sum(own, number_at(loops, k))?;
    }
    Ok(())
}

/// Adds the guesses of an implementation's loops, of candidates from `next` on, and answers the candidate behind them.
#[tactic(auto, using(crate::proofs::There::procedure_forms))]
fn guess_implementation(
    desk: Desk,
    v: &Survey<'_>,
    procedures: &[Procedure],
    next: u32,
    m: &mut Implementation,
) -> Result<u32, AllocError>
    ensures { IfOk result (λ n. (impl_of m.new ≡ s.guessed_impl (survey_view v.now) (map proc_of procedures.now) desk.above next (impl_of m.old)) × (n ≡ next + s.impl_count (survey_view v.now) (map proc_of procedures.now) (impl_of m.old))) }
{
    match procedures.get(m.procedure as usize) {
        None => Ok(next),
        Some(q) => {
            let list = invariant(desk.alloc, v, q, m)?;
            guess_stmts(desk, &list, next, &mut m.body)
        }
    }
}

/// Adds the guesses of implementations' loops, where those of each procedure begin at these candidates.
pub fn guess_implementations(
    desk: Desk,
    v: &Survey<'_>,
    procedures: &[Procedure],
    nexts: &mut Vec<u32>,
    implementations: &mut Vec<Implementation>,
) -> Result<(), AllocError>
    ensures { OnOk result (map impl_of implementations.new.items ≡ s.guessed_impls (survey_view v.now) (map proc_of procedures.now) desk.above nexts.old.items (map impl_of implementations.old.items)) }
{
    for i in 0..implementations.len() {
        let k = implementations[i].procedure as usize;
        let next = number_at(nexts, k);
        let behind = guess_implementation(desk, v, procedures, next, &mut implementations[i])?;
        set(nexts, k, behind);
    }
    Ok(())
}
