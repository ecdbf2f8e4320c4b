//! Commands.
ghost use Rattle.std.specs.Prelude.{◌≡◌, map, OnOk};
ghost use Rattle.bg_ast.specs.Resolved.{Program};
ghost use Rattle.bg_ast.specs.Meaning as m;
ghost use Rattle.bg_ast.specs.Views.{ex_of, exs_in, target_of};
ghost use Rattle.bg_flow.specs.Core.{Put};
ghost use Rattle.bg_blocks.specs.Views.{cmd_of, target_variable};
ghost use Rattle.bg_passive.specs.Incarnations.{pass, pass_all};
ghost use Rattle.bg_incarnate.specs.Views.{passed_of, onto};

use crate::blocks::PassiveCmd;
use crate::call::{Plan, call};
use crate::clauses::{claims, suppose, supposes};
use crate::held::{Held, hold_new, hold_targets, seen};
use crate::worth::values;
use bg_ast::resolved::{Expr, Target};
use bg_base::Pos;
use bg_blocks::Cmd;
use bg_renamed::renamed;
use std::alloc::{AllocError, Global};

/// An assignment: all right sides are read before any variable has its new incarnation.
fn assign(
    alloc: Global,
    out: &mut Vec<PassiveCmd>,
    held: &mut Held<'_>,
    next: &mut u32,
    targets: &[Target],
    es: &[Expr],
) -> Result<(), AllocError>
    ensures { OnOk result (passed_of out.new.items held.new next.new ≡ onto (pass (Put (map target_variable (map target_of targets.now)) (m.values_of (map target_of targets.now) (exs_in es.now)))) (passed_of out.old.items held.old next.old)) }
{
    let made = values(alloc, out, next, targets, es, &seen(held))?;
    hold_targets(held, targets, &made);
    Ok(())
}

/// A command over incarnations.
fn command(
    alloc: Global,
    out: &mut Vec<PassiveCmd>,
    held: &mut Held<'_>,
    next: &mut u32,
    k: &Cmd<'_>,
) -> Result<(), AllocError>
    ensures { OnOk result ((p : Program) → passed_of out.new.items held.new next.new ≡ onto (pass (cmd_of p k.now)) (passed_of out.old.items held.old next.old)) }
{
    match k {
        Cmd::Check(group, ks) => claims(alloc, out, *group, ks, &seen(held)),
        Cmd::Suppose(which, ks) => supposes(alloc, out, *which, ks, &seen(held)),
        Cmd::Assume(e) => {
            let says = renamed(alloc, e, &seen(held))?;
            suppose(out, None, says)
        }
        Cmd::Forget(xs) => hold_new(held, next, xs),
        Cmd::Put(targets, es) => assign(alloc, out, held, next, targets, es),
        Cmd::Perform(k, q, xs) => {
            let plan = Plan {
                call: k,
                procedure: q,
                modifies: xs,
            };
            call(alloc, out, held, next, plan)
        }
        Cmd::Finish => {
            let never = Expr::Truth(Pos { line: 0, column: 0 }, false);
            suppose(out, None, never)
        }
    }
}

/// Commands over incarnations, behind those that are there.
pub fn commands(
    alloc: Global,
    out: &mut Vec<PassiveCmd>,
    held: &mut Held<'_>,
    next: &mut u32,
    ks: &[Cmd<'_>],
) -> Result<(), AllocError>
    ensures { OnOk result ((p : Program) → passed_of out.new.items held.new next.new ≡ onto (pass_all (map (cmd_of p) ks.now)) (passed_of out.old.items held.old next.old)) }
{
    for k in ks {
        command(alloc, out, held, next, k)?;
    }
    Ok(())
}
