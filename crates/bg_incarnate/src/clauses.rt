//! Clauses over incarnations.
ghost use Rattle.std.specs.Prelude.{◌≡◌, [], ◌∷◌, ◌++◌, OnOk};
ghost use Rattle.bg_text.specs.Views.{option_of};
ghost use Rattle.bg_ast.specs.Meaning as m;
ghost use Rattle.bg_ast.specs.Views.{ex_of, candidate_of};
ghost use Rattle.bg_places.specs.Views.{spot_in};
ghost use Rattle.bg_flow.specs.Core.{demands, sayings};
ghost use Rattle.bg_blocks.specs.Views.{clauses_in};
ghost use Rattle.bg_passive.specs.Passive.{Supposes};
ghost use Rattle.bg_passive.specs.Incarnations.{claims_in, supposes_in};
ghost use Rattle.bg_renamed.specs.Views.{env_of};
ghost use Rattle.bg_incarnate.specs.Views.{cmds_of, is_kept_by};

use crate::blocks::PassiveCmd;
use bg_ast::resolved::{Clause, Expr};
use bg_base::CandId;
use bg_blocks::Kept;
use bg_places::{Group, spot_at};
use bg_renamed::{Env, renamed};
use std::alloc::{AllocError, Global};

/// Adds a claim for each of the clauses that is checked.
pub fn claims(
    alloc: Global,
    out: &mut Vec<PassiveCmd>,
    group: Group,
    clauses: &[Clause],
    env: &Env<'_>,
) -> Result<(), AllocError>
    ensures { OnOk result (cmds_of out.new.items ≡ cmds_of out.old.items ++ claims_in (env_of env.now) (demands (spot_in group) (clauses_in clauses.now))) }
{
    for k in clauses {
        if !k.is_free {
            let says = renamed(alloc, &k.formula, env)?;
            out.push(PassiveCmd::Claims(spot_at(group, k.id), k.candidate, says))?;
        }
    }
    Ok(())
}

/// Adds that this is supposed, where the candidate is there.
pub fn suppose(
    out: &mut Vec<PassiveCmd>,
    candidate: Option<CandId>,
    says: Expr,
) -> Result<(), AllocError>
    ensures { OnOk result (cmds_of out.new.items ≡ cmds_of out.old.items ++ Supposes (option_of candidate_of candidate) (m.ex_of (ex_of says)) ∷ []) }
{
    out.push(PassiveCmd::Supposes(candidate, says))?;
    Ok(())
}

fn is_kept(which: Kept, is_free: bool) -> bool
    ensures { result ≡ is_kept_by which is_free }
{
    match which {
        Kept::Each => true,
        Kept::Checked => !is_free,
        Kept::Free => is_free,
    }
}

/// Adds what is supposed for each of the clauses that is assumed.
pub fn supposes(
    alloc: Global,
    out: &mut Vec<PassiveCmd>,
    which: Kept,
    clauses: &[Clause],
    env: &Env<'_>,
) -> Result<(), AllocError>
    ensures { OnOk result (cmds_of out.new.items ≡ cmds_of out.old.items ++ supposes_in (env_of env.now) (sayings (is_kept_by which) (clauses_in clauses.now))) }
{
    for k in clauses {
        if is_kept(which, k.is_free) {
            let says = renamed(alloc, &k.formula, env)?;
            suppose(out, k.candidate, says)?;
        }
    }
    Ok(())
}
