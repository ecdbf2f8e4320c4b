//! Guesses as clauses, and loops with guessed invariants.
ghost use Rattle.std.specs.Prelude.{◌≡◌, ◌+◌, ◌++◌, length, map, IfOk, OnOk};
ghost use Rattle.bg_ast.specs.Views.{clause_of, st_of, sts_in, arms_from, arm_view};
ghost use Rattle.bg_guess.specs.Claims.{claims, subjects_of};
ghost use Rattle.bg_guess.specs.Loops as l;

use crate::claim::{Claim, Subjects, claims, says};
use crate::numbers::sum;
use bg_ast::resolved::{Arm, Clause, Stmt};
use bg_base::{CandId, Pos};
use std::alloc::{AllocError, Global};

/// With what guesses are made: memory, and a number above those of all clauses.
#[derive(Clone, Copy)]
pub struct Desk {
    pub alloc: Global,
    pub above: u32,
}

/// The clause of a guess.
fn guess(desk: Desk, pos: Pos, candidate: u32, claim: Claim) -> Result<Clause, AllocError>
    ensures { IfOk result (λ k. clause_of k ≡ l.guess desk.above pos candidate claim) }
{
    Ok(Clause {
        pos,
        id: sum(desk.above, candidate)?,
        is_free: false,
        candidate: Some(CandId(candidate)),
        formula: says(desk.alloc, pos, claim)?,
    })
}

/// Adds these guesses, of candidates from `next` on, and answers the candidate behind them.
fn push_claims(
    desk: Desk,
    pos: Pos,
    next: u32,
    claims: &[Claim],
    out: &mut Vec<Clause>,
) -> Result<u32, AllocError>
    ensures { IfOk result (λ n. (map clause_of out.new.items ≡ map clause_of out.old.items ++ l.guesses desk.above pos next claims.now) × (n ≡ next + length claims.now)) }
{
    let mut at = next;
    for claim in claims {
        out.push(guess(desk, pos, at, *claim)?)?;
        at = sum(at, 1)?;
    }
    Ok(at)
}

/// Adds the guesses of a list, of candidates from `next` on, and answers the candidate behind them.
pub fn push_guesses(
    desk: Desk,
    pos: Pos,
    next: u32,
    s: &Subjects,
    out: &mut Vec<Clause>,
) -> Result<u32, AllocError>
    ensures { IfOk result (λ n. (map clause_of out.new.items ≡ map clause_of out.old.items ++ l.guesses desk.above pos next (claims (subjects_of s.now))) × (n ≡ next + l.size (subjects_of s.now))) }
{
    let claims = claims(desk.alloc, s)?;
    push_claims(desk, pos, next, &claims, out)
}

/// Adds the guesses of the loops of a statement.
#[tactic(auto, using(crate::proofs::Forms::loop_forms, crate::proofs::InFront::front_forms))]
#[cycle(guess_stmts)]
fn guess_stmt(desk: Desk, s: &Subjects, next: u32, a: &mut Stmt) -> Result<u32, AllocError>
    ensures { IfOk result (λ n. (st_of a.new ≡ l.guessed_st desk.above (subjects_of s.now) next (st_of a.old)) × (n ≡ next + l.st_guesses (l.size (subjects_of s.now)) (st_of a.old))) }
{
    match std::mem::replace(a, Stmt::Return) {
        Stmt::If(number, mut arms, mut otherwise) => {
            let behind = guess_arms(desk, s, next, &mut arms)?;
            let last = guess_stmts(desk, s, behind, &mut otherwise)?;
            *a = Stmt::If(number, arms, otherwise);
            Ok(last)
        }
        Stmt::While(number, pos, guard, mut invariants, mut body) => {
            let inside = push_guesses(desk, pos, next, s, &mut invariants)?;
            let last = guess_stmts(desk, s, inside, &mut body)?;
            *a = Stmt::While(number, pos, guard, invariants, body);
            Ok(last)
        }
        other => {
            *a = other;
            Ok(next)
        }
    }
}

/// Adds the guesses of the loops of arms.
#[tactic(auto, using(crate::proofs::Forms::loop_forms, crate::proofs::InFront::front_forms))]
#[cycle(guess_stmts)]
fn guess_arms(desk: Desk, s: &Subjects, next: u32, arms: &mut Vec<Arm>) -> Result<u32, AllocError>
    ensures { IfOk result (λ n. (arms_from (map arm_view arms.new.items) ≡ l.guessed_arms desk.above (subjects_of s.now) next (arms_from (map arm_view arms.old.items))) × (n ≡ next + l.arms_guesses (l.size (subjects_of s.now)) (arms_from (map arm_view arms.old.items)))) }
{
    let mut at = next;
    for i in 0..arms.len() {
        at = guess_stmts(desk, s, at, &mut arms[i].body)?;
    }
    Ok(at)
}

/// Adds the guesses of the loops of statements, of candidates from `next` on in the order of the text, and answers the candidate
/// behind them.
#[tactic(auto, using(crate::proofs::Forms::loop_forms, crate::proofs::InFront::front_forms))]
#[cycle(guess_stmts)]
pub fn guess_stmts(
    desk: Desk,
    s: &Subjects,
    next: u32,
    ss: &mut Vec<Stmt>,
) -> Result<u32, AllocError>
    ensures { IfOk result (λ n. (sts_in ss.new.items ≡ l.guessed_sts desk.above (subjects_of s.now) next (sts_in ss.old.items)) × (n ≡ next + l.sts_guesses (l.size (subjects_of s.now)) (sts_in ss.old.items))) }
{
    let mut at = next;
    for i in 0..ss.len() {
        at = guess_stmt(desk, s, at, &mut ss[i])?;
    }
    Ok(at)
}
