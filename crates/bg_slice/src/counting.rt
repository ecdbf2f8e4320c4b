//! The commands that count for a target.
ghost use Rattle.std.specs.Prelude.{◌≡◌};
ghost use Rattle.bg_places.specs.Views.{spot_of};
ghost use Rattle.bg_formed.specs.Seen.{use_of};
ghost use Rattle.bg_formed.specs.Views.{form_cmd_of, form_cmds_of};
ghost use Rattle.bg_slice.specs.Counting.{checks, IsFront};

use bg_formed::{FormCmd, Use, is_spot};
use bg_places::Spot;

/// Whether a command checks the target.
fn checks(k: &FormCmd, target: Spot) -> bool
    ensures { result ≡ checks (spot_of target) (form_cmd_of k.now) }
{
    match k {
        FormCmd::Claims(s, _, _) => is_spot(*s, target),
        FormCmd::Supposes(_, _) => false,
    }
}

/// Of commands in front of what is behind them those that count: all, where the target's check is reached behind them, and else those
/// up to the last one that checks the target.
pub fn counting<'a>(target: Spot, cmds: &'a [FormCmd], u: Use) -> &'a [FormCmd]
    ensures { IsFront (spot_of target) (form_cmds_of cmds.now) (use_of u) (form_cmds_of result.now) }
{
    if u.reached {
        return cmds;
    }
    let mut left: &[FormCmd] = cmds;
    while let Some((last, before)) = left.split_last() {
        if checks(last, target) {
            return left;
        }
        left = before;
    }
    left
}
