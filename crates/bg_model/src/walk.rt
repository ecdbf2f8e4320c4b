//! Walks through commands of forms.
ghost use Rattle.std.specs.Prelude.{◌≡◌, [], ◌∷◌};
ghost use Rattle.bg_text.specs.Views.{option_of};
ghost use Rattle.bg_ast.specs.Views.{candidate_of};
ghost use Rattle.bg_passive.specs.Passive.{is_absent};
ghost use Rattle.bg_forms.specs.Worth.{bools_at};
ghost use Rattle.bg_formed.specs.Views.{says_of, form_cmd_of, form_cmds_of};
ghost use Rattle.bg_formed.specs.Wells as spec;
ghost use Rattle.bg_model.specs.Views.{set_of, walked_of, walk_in};

use crate::trial::Trial;
use bg_base::CandId;
use bg_formed::{FormCmd, Says, is_spot};
use bg_forms::is_worth;

/// How a walk through commands goes: on, to an end without the failure that is looked for, or to it.
#[derive(Clone, Copy)]
pub enum Went {
    On,
    Stopped,
    Hit,
}

/// Whether a clause with this candidate is absent.
fn is_absent(set: &[bool], b: Option<CandId>) -> bool
    ensures { result ≡ is_absent (set_of set.now) (option_of candidate_of b) }
{
    match b {
        None => false,
        Some(b) => match set.get(b.0 as usize) {
            None => true,
            Some(there) => !*there,
        },
    }
}

/// Whether a clause is absent or holds; one whose form could not be made doesn't hold.
fn is_met(trial: Trial<'_>, b: Option<CandId>, r: &Says) -> bool
    ensures { result ≡ spec.is_met (set_of trial.entry.set.now) (bools_at trial.entry.truths.now) (option_of candidate_of b) (says_of r.now) }
{
    if is_absent(trial.set, b) {
        return true;
    }
    match r {
        Says::Form(f) => is_worth(trial.truths, f),
        Says::Outside(_) => false,
    }
}

/// How a walk through one command goes.
fn step(trial: Trial<'_>, k: &FormCmd) -> Went
    ensures { walked_of result ≡ walk_in trial.entry (form_cmd_of k.now ∷ []) }
{
    match k {
        FormCmd::Claims(spot, b, r) => {
            if is_met(trial, *b, r) {
                Went::On
            } else if is_spot(*spot, trial.target) {
                Went::Hit
            } else {
                Went::Stopped
            }
        }
        FormCmd::Supposes(b, r) => {
            if is_met(trial, *b, r) {
                Went::On
            } else {
                Went::Stopped
            }
        }
    }
}

/// How a walk through commands goes.
pub fn walk(trial: Trial<'_>, cmds: &[FormCmd]) -> Went
    ensures { walked_of result ≡ walk_in trial.entry (form_cmds_of cmds.now) }
{
    for k in cmds {
        match step(trial, k) {
            Went::On => {}
            Went::Stopped => return Went::Stopped,
            Went::Hit => return Went::Hit,
        }
    }
    Went::On
}
