//! The checks of statements.
ghost use Rattle.std.specs.Prelude.{◌≡◌, [], ◌∷◌, ◌++◌, map, Some, None, OnOk, slice_get};
ghost use Rattle.bg_ast.specs.Views.{st_of, sts_in, arms_from, arm_view, proc_of, clause_of, call_of};
ghost use Rattle.bg_ast.specs.Execution.{AtAssert, AtCall};
ghost use Rattle.bg_places.specs.Placed.{placed_st, placed_sts, placed_arms, placed_clauses, requires_of};
ghost use Rattle.bg_places.specs.Views.{placed_in};

use crate::clauses::push_checks;
use crate::place::{Group, Place};
use bg_ast::resolved::{Arm, Call, Clause, Procedure, Stmt};
use std::alloc::AllocError;

/// Adds the place of an assertion.
fn push_assert(out: &mut Vec<Place>, implementation: usize, k: &Clause) -> Result<(), AllocError>
    ensures { OnOk result (placed_in out.new.items ≡ placed_in out.old.items ++ placed_clauses implementation AtAssert None (clause_of k.now ∷ [])) }
{
    push_checks(
        out,
        implementation,
        Group::Assert,
        None,
        std::slice::from_ref(k),
    )
}

/// Adds the places of a call.
#[tactic(auto, using(crate::proofs::There::procedure_forms))]
fn push_call(
    out: &mut Vec<Place>,
    procedures: &[Procedure],
    implementation: usize,
    k: &Call,
) -> Result<(), AllocError>
    ensures { OnOk result (placed_in out.new.items ≡ placed_in out.old.items ++ placed_clauses implementation (AtCall k.now.site) (Some k.now.pos) (requires_of (slice_get (map proc_of procedures.now) k.now.procedure))) }
{
    match procedures.get(k.procedure as usize) {
        None => Ok(()),
        Some(q) => push_checks(
            out,
            implementation,
            Group::Call(k.site),
            Some(k.pos),
            &q.requires_,
        ),
    }
}

/// Adds the places of a statement.
#[tactic(auto, using(crate::proofs::Forms::place_forms))]
#[cycle(push_stmts)]
fn push_stmt(
    out: &mut Vec<Place>,
    procedures: &[Procedure],
    implementation: usize,
    s: &Stmt,
) -> Result<(), AllocError>
    ensures { OnOk result (placed_in out.new.items ≡ placed_in out.old.items ++ placed_st (map proc_of procedures.now) implementation (st_of s.now)) }
{
    match s {
        Stmt::Assert(k) => push_assert(out, implementation, k),
        Stmt::Invoke(k) => push_call(out, procedures, implementation, k),
        Stmt::If(_, arms, otherwise) => {
            push_arms(out, procedures, implementation, arms)?;
            push_stmts(out, procedures, implementation, otherwise)
        }
        Stmt::While(_, _, _, invariants, body) => {
            push_checks(out, implementation, Group::Entry, None, invariants)?;
            push_stmts(out, procedures, implementation, body)?;
            push_checks(out, implementation, Group::Turn, None, invariants)
        }
        _ => Ok(()),
    }
}

/// Adds the places of arms.
#[tactic(auto, using(crate::proofs::Forms::place_forms))]
#[cycle(push_stmts)]
fn push_arms(
    out: &mut Vec<Place>,
    procedures: &[Procedure],
    implementation: usize,
    arms: &[Arm],
) -> Result<(), AllocError>
    ensures { OnOk result (placed_in out.new.items ≡ placed_in out.old.items ++ placed_arms (map proc_of procedures.now) implementation (arms_from (map arm_view arms.now))) }
{
    for a in arms {
        push_stmts(out, procedures, implementation, &a.body)?;
    }
    Ok(())
}

/// Adds the places of statements of the implementation with this number.
#[tactic(auto, using(crate::proofs::Forms::place_forms))]
#[cycle(push_stmts)]
pub fn push_stmts(
    out: &mut Vec<Place>,
    procedures: &[Procedure],
    implementation: usize,
    ss: &[Stmt],
) -> Result<(), AllocError>
    ensures { OnOk result (placed_in out.new.items ≡ placed_in out.old.items ++ placed_sts (map proc_of procedures.now) implementation (sts_in ss.now)) }
{
    for s in ss {
        push_stmt(out, procedures, implementation, s)?;
    }
    Ok(())
}
