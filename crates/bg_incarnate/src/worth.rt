//! What incarnations are worth.
ghost use Rattle.std.specs.Prelude.{◌≡◌, suc, [], ◌∷◌, ◌++◌, map, IfOk, OnOk};
ghost use Rattle.bg_ast.specs.Meaning as m;
ghost use Rattle.bg_ast.specs.Views.{ex_of, exs_in, target_of};
ghost use Rattle.bg_passive.specs.Incarnations.{is_worth, set_to, each_ex, after_exs};
ghost use Rattle.bg_renamed.specs.Views.{env_of};
ghost use Rattle.bg_incarnate.specs.Views.{cmds_of};

use crate::blocks::PassiveCmd;
use crate::clauses::suppose;
use crate::held::take_next;
use bg_ast::resolved::{Expr, Target};
use bg_renamed::{Env, assigned, equal, renamed};
use std::alloc::{AllocError, Global};

/// Adds that this incarnation is worth this.
pub fn suppose_worth(
    alloc: Global,
    out: &mut Vec<PassiveCmd>,
    j: u32,
    value: Expr,
) -> Result<(), AllocError>
    ensures { OnOk result (cmds_of out.new.items ≡ cmds_of out.old.items ++ is_worth j (m.ex_of (ex_of value)) ∷ []) }
{
    let says = equal(alloc, j, value)?;
    suppose(out, None, says)
}

/// The next incarnation is worth this.
fn worth(
    alloc: Global,
    out: &mut Vec<PassiveCmd>,
    next: &mut u32,
    made: &mut Vec<u32>,
    value: Expr,
) -> Result<(), AllocError>
    ensures cmds { OnOk result (cmds_of out.new.items ≡ cmds_of out.old.items ++ is_worth next.old (m.ex_of (ex_of value)) ∷ []) }
    ensures made { OnOk result (made.new.items ≡ made.old.items ++ next.old ∷ []) }
    ensures more { OnOk result (next.new ≡ suc next.old) }
{
    let j = take_next(next)?;
    suppose_worth(alloc, out, j, value)?;
    made.push(j)?;
    Ok(())
}

/// A new incarnation for each of the expressions.
pub fn arguments(
    alloc: Global,
    out: &mut Vec<PassiveCmd>,
    next: &mut u32,
    es: &[Expr],
    env: &Env<'_>,
) -> Result<Vec<u32>, AllocError>
    ensures cmds { OnOk result (cmds_of out.new.items ≡ cmds_of out.old.items ++ set_to next.old (m.exs_of (exs_in es.now)) (env_of env.now)) }
    ensures made { IfOk result (λ made. made.items ≡ each_ex next.old (m.exs_of (exs_in es.now))) }
    ensures more { OnOk result (next.new ≡ after_exs (m.exs_of (exs_in es.now)) next.old) }
{
    let mut made = Vec::new(alloc);
    for e in es {
        let value = renamed(alloc, e, env)?;
        worth(alloc, out, next, &mut made, value)?;
    }
    Ok(made)
}

/// A new incarnation for each of the targets, which are assigned these values.
pub fn values(
    alloc: Global,
    out: &mut Vec<PassiveCmd>,
    next: &mut u32,
    targets: &[Target],
    es: &[Expr],
    env: &Env<'_>,
) -> Result<Vec<u32>, AllocError>
    ensures cmds { OnOk result (cmds_of out.new.items ≡ cmds_of out.old.items ++ set_to next.old (m.values_of (map target_of targets.now) (exs_in es.now)) (env_of env.now)) }
    ensures made { IfOk result (λ made. made.items ≡ each_ex next.old (m.values_of (map target_of targets.now) (exs_in es.now))) }
    ensures more { OnOk result (next.new ≡ after_exs (m.values_of (map target_of targets.now) (exs_in es.now)) next.old) }
{
    let mut made = Vec::new(alloc);
    for (i, target) in targets.iter().enumerate() {
        if i >= es.len() {
            return Ok(made);
        }
        let value = assigned(alloc, target, &es[i], env)?;
        worth(alloc, out, next, &mut made, value)?;
    }
    Ok(made)
}
