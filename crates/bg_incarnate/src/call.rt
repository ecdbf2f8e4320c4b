//! Calls.
ghost use Rattle.std.specs.Prelude.{◌≡◌, ◌+◌, ◌++◌, length, IfOk, OnOk};
ghost use Rattle.bg_ast.specs.Resolved.{Program};
ghost use Rattle.bg_ast.specs.Views.{call_of, proc_of};
ghost use Rattle.bg_sense.specs.Variables.{count_from};
ghost use Rattle.bg_flow.specs.Core.{Perform};
ghost use Rattle.bg_passive.specs.Incarnations.{pass};
ghost use Rattle.bg_incarnate.specs.Views.{passed_of, onto, plan_in};

use crate::blocks::PassiveCmd;
use crate::clauses::{claims, supposes};
use crate::held::{Held, fresh, hold_new, hold_taken, seen};
use crate::worth::arguments;
use bg_ast::resolved::{Call, Declared, Procedure, Variable};
use bg_blocks::Kept;
use bg_places::Group;
use bg_renamed::Env;
use std::alloc::{AllocError, Global};

/// A call, its procedure, and the globals that the procedure modifies.
#[derive(Clone, Copy)]
pub struct Plan<'p> {
    pub call: &'p Call,
    pub procedure: &'p Procedure,
    pub modifies: &'p [Variable],
}

/// A new incarnation for each result, which stands in the callee's frame too.
fn results(
    alloc: Global,
    next: &mut u32,
    frame: &mut Vec<u32>,
    declared: &[Declared],
) -> Result<Vec<u32>, AllocError>
    ensures made { IfOk result (λ made. made.items ≡ count_from next.old (length declared.now)) }
    ensures frame { OnOk result (frame.new.items ≡ frame.old.items ++ count_from next.old (length declared.now)) }
    ensures more { OnOk result (next.new ≡ next.old + length declared.now) }
{
    let made = fresh(alloc, next, declared.len())?;
    frame.extend_from_slice(&made)?;
    Ok(made)
}

/// A call.
pub fn call(
    alloc: Global,
    out: &mut Vec<PassiveCmd>,
    held: &mut Held<'_>,
    next: &mut u32,
    plan: Plan<'_>,
) -> Result<(), AllocError>
    ensures { OnOk result ((p : Program) → passed_of out.new.items held.new next.new ≡ onto (pass (Perform (plan_in p (call_of plan.entry.call.now) (proc_of plan.entry.procedure.now) plan.entry.modifies.now))) (passed_of out.old.items held.old next.old)) }
{
    let Plan {
        call: k,
        procedure: q,
        modifies,
    } = plan;
    let mut frame = arguments(alloc, out, next, &k.args, &seen(held))?;
    let was = held.globals.to_vec(alloc)?;
    let needs = Env {
        globals: &was,
        before: &was,
        frame: &frame,
    };
    claims(alloc, out, Group::Call(k.site), &q.requires_, &needs)?;
    hold_new(held, next, modifies)?;
    let made = results(alloc, next, &mut frame, &q.results)?;
    let gives = Env {
        globals: &held.globals,
        before: &was,
        frame: &frame,
    };
    supposes(alloc, out, Kept::Each, &q.ensures_, &gives)?;
    hold_taken(held, &k.takes, &made);
    Ok(())
}
