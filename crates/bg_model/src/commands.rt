//! The choices of commands.
ghost use Rattle.std.specs.Prelude.{◌≡◌, ◌∷◌, List, map, IfOk};
ghost use Rattle.bg_ast.specs.Values.{Val};
ghost use Rattle.bg_ast.specs.Execution as e;
ghost use Rattle.bg_ast.specs.Resolved.{Program};
ghost use Rattle.bg_flow.specs.Core as core;
ghost use Rattle.bg_blocks.specs.Views.{cmd_of};
ghost use Rattle.bg_model.specs.Views.{if_goes, made_by, next_by};

use crate::choose::choose;
use crate::front::Front;
use crate::share::{add, share_of};
use crate::trial::Trial;
use crate::walk::{Went, walk};
use bg_blocks::Cmd;
use std::alloc::AllocError;

/// Adds the choices of a command, and tells whether the walk goes on behind it.
fn command(trial: Trial<'_>, front: &mut Front<'_>, k: &Cmd<'_>) -> Result<bool, AllocError>
    ensures { IfOk result (λ goes. (vs : List Val) (p : Program) (ks : List core.Cmd) (rest : List e.Choice) → made_by vs front.old (next_by vs trial.entry (cmd_of p k.now ∷ ks) front.old rest) ≡ made_by vs front.new (if_goes goes (next_by vs trial.entry ks front.new rest))) }
{
    let s = share_of(k)?;
    let width = s.cmds.min(front.left.len());
    match walk(trial, &front.left[..width]) {
        Went::On => {}
        Went::Stopped => return Ok(false),
        Went::Hit => return Ok(false),
    }
    let first = add(front.next, s.skips)?;
    choose(&mut front.made, first, s.chooses)?;
    front.next = add(first, s.chooses)?;
    front.left = &front.left[width..];
    Ok(true)
}

/// Adds the choices of commands up to the one at which the walk ends, and tells whether it goes on behind all of them.
pub fn commands(trial: Trial<'_>, front: &mut Front<'_>, ks: &[Cmd<'_>]) -> Result<bool, AllocError>
    ensures { IfOk result (λ goes. (vs : List Val) (p : Program) (rest : List e.Choice) → made_by vs front.old (next_by vs trial.entry (map (cmd_of p) ks.now) front.old rest) ≡ made_by vs front.new (if_goes goes rest)) }
{
    for k in ks {
        if !command(trial, front, k)? {
            return Ok(false);
        }
    }
    Ok(true)
}
