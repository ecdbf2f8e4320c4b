//! Statements.
ghost use Rattle.std.specs.Prelude.{◌≡◌, ◌++◌, map, OnOk};
ghost use Rattle.bg_ast.specs.Views.{st_of, sts_in, arms_from, arm_view};
ghost use Rattle.bg_kinds.specs.Faults.{first_of};
ghost use Rattle.bg_typing.specs.Stmts.{st_faults, sts_faults, arms_faults, guard_faults};
ghost use Rattle.bg_kinds.specs.FaultViews.{best_of};
ghost use Rattle.bg_typing.specs.SideViews.{scope_of};

use crate::parts::{want_assign, want_call, want_clauses, want_guard, want_truth};
use crate::scope::Scope;
use bg_ast::resolved::{Arm, Stmt};
use bg_kinds::Found;
use std::alloc::{AllocError, Global};

/// Notes the faults of a statement.
#[cycle(stmts)]
fn check_stmt<'a>(
    alloc: Global,
    g: Scope<'a>,
    best: &mut Option<Found<'a>>,
    s: &Stmt,
) -> Result<(), AllocError>
    ensures { OnOk result (best_of best.new ≡ first_of (best_of best.old) (st_faults (scope_of g.entry) (st_of s.now))) }
{
    match s {
        Stmt::Label(_) | Stmt::Havoc(_) | Stmt::Break(_) | Stmt::Goto(_) | Stmt::Return => Ok(()),
        Stmt::Assert(k) => want_truth(alloc, g, best, &k.formula),
        Stmt::Assume(e) => want_truth(alloc, g, best, e),
        Stmt::Assign(p, ts, es) => want_assign(alloc, g, best, *p, ts, es),
        Stmt::Invoke(k) => want_call(alloc, g, best, k),
        Stmt::If(_, arms, otherwise) => {
            check_arms(alloc, g, best, arms)?;
            check_stmts(alloc, g, best, otherwise)?;
            Ok(())
        }
        Stmt::While(_, _, guard, invariants, body) => {
            want_guard(alloc, g, best, guard)?;
            want_clauses(alloc, g, best, invariants)?;
            check_stmts(alloc, g, best, body)?;
            Ok(())
        }
    }
}

/// Notes the faults of statements.
#[cycle(stmts)]
pub fn check_stmts<'a>(
    alloc: Global,
    g: Scope<'a>,
    best: &mut Option<Found<'a>>,
    ss: &[Stmt],
) -> Result<(), AllocError>
    ensures { OnOk result (best_of best.new ≡ first_of (best_of best.old) (sts_faults (scope_of g.entry) (sts_in ss.now))) }
{
    for s in ss {
        check_stmt(alloc, g, best, s)?;
    }
    Ok(())
}

#[cycle(stmts)]
fn check_arm<'a>(
    alloc: Global,
    g: Scope<'a>,
    best: &mut Option<Found<'a>>,
    arm: &Arm,
) -> Result<(), AllocError>
    ensures { OnOk result (best_of best.new ≡ first_of (best_of best.old) (guard_faults (scope_of g.entry) (arm_view arm.now).0 ++ sts_faults (scope_of g.entry) (arm_view arm.now).1)) }
{
    want_guard(alloc, g, best, &arm.guard)?;
    check_stmts(alloc, g, best, &arm.body)?;
    Ok(())
}

#[cycle(stmts)]
fn check_arms<'a>(
    alloc: Global,
    g: Scope<'a>,
    best: &mut Option<Found<'a>>,
    arms: &[Arm],
) -> Result<(), AllocError>
    ensures { OnOk result (best_of best.new ≡ first_of (best_of best.old) (arms_faults (scope_of g.entry) (arms_from (map arm_view arms.now)))) }
{
    for arm in arms {
        check_arm(alloc, g, best, arm)?;
    }
    Ok(())
}
