//! Clauses that are checked or assumed.
ghost use Rattle.std.specs.Prelude.{◌≡◌, IfOk};
ghost use Rattle.bg_text.specs.Views.{option_of};
ghost use Rattle.bg_ast.specs.Views.{candidate_of};
ghost use Rattle.bg_sense.specs.Flow.{Blocked, Failed};
ghost use Rattle.bg_sense.specs.Clauses as kept;
ghost use Rattle.bg_places.specs.Views.{spot_in};
ghost use Rattle.bg_flow.specs.Core.{demands, sayings};
ghost use Rattle.bg_blocks.specs.Views.{clauses_in};
ghost use Rattle.bg_replay.specs.Said.{checks, supposes, or_stops};
ghost use Rattle.bg_replay.specs.Kept.{which_of};
ghost use Rattle.bg_scalar.specs.Views.{seen_of, worth_in};
ghost use Rattle.bg_replay.specs.Views.{said_of, set_of, around_of};

use crate::ending::{Ending, Step};
use crate::moment::Around;
use bg_ast::resolved::Clause;
use bg_base::CandId;
use bg_blocks::Kept;
use bg_places::{Group, spot_at};
use bg_scalar::{Sight, Worth, truth, worth};
use std::alloc::AllocError;

/// Whether a clause with this candidate is there.
fn is_kept(set: &[bool], candidate: Option<CandId>) -> bool
    ensures { result ≡ kept.is_kept (set_of set.now) (option_of candidate_of candidate) }
{
    match candidate {
        None => true,
        Some(b) => set.get(b.0 as usize).copied().unwrap_or(false),
    }
}

/// What is checked is true, or the run fails there.
#[tactic(auto, using(crate::proofs::Truths::said_forms))]
fn ensured(group: Group, clause: u32, value: Worth<'_>) -> Step
    ensures { said_of result ≡ or_stops (Failed (spot_in group clause)) (worth_in value.entry) }
{
    match value {
        Worth::Leaves(o) => Step::Over(Ending::OutOfRange(o)),
        Worth::NoValue => Step::Over(Ending::NoValues),
        Worth::Is(x) => match truth(&x) {
            None => Step::Over(Ending::NoValues),
            Some(true) => Step::Goes,
            Some(false) => Step::Over(Ending::Failed(spot_at(group, clause))),
        },
    }
}

/// What is assumed is true, or the run is blocked.
#[tactic(auto, using(crate::proofs::Truths::said_forms))]
pub fn assumed(value: Worth<'_>) -> Step
    ensures { said_of result ≡ or_stops Blocked (worth_in value.entry) }
{
    match value {
        Worth::Leaves(o) => Step::Over(Ending::OutOfRange(o)),
        Worth::NoValue => Step::Over(Ending::NoValues),
        Worth::Is(x) => match truth(&x) {
            None => Step::Over(Ending::NoValues),
            Some(true) => Step::Goes,
            Some(false) => Step::Over(Ending::Blocked),
        },
    }
}

/// Whether clauses are assumed that are free, or not.
fn is_which(which: Kept, is_free: bool) -> bool
    ensures { result ≡ which_of which is_free }
{
    match which {
        Kept::Each => true,
        Kept::Checked => !is_free,
        Kept::Free => is_free,
    }
}

/// Clauses are checked in order.
///
/// Only want of memory is an error.
pub fn check(
    around: Around<'_>,
    sight: Sight<'_>,
    group: Group,
    clauses: &[Clause],
) -> Result<Step, AllocError>
    ensures { IfOk result (λ step. said_of step ≡ checks (around_of around.entry).set (seen_of sight.entry) (demands (spot_in group) (clauses_in clauses.now))) }
{
    for k in clauses {
        if !k.is_free && is_kept(around.set, k.candidate) {
            match ensured(group, k.id, worth(around.alloc, sight, &k.formula)?) {
                Step::Goes => {}
                Step::Over(e) => return Ok(Step::Over(e)),
            }
        }
    }
    Ok(Step::Goes)
}

/// Clauses are assumed in order.
///
/// Only want of memory is an error.
pub fn suppose(
    around: Around<'_>,
    sight: Sight<'_>,
    which: Kept,
    clauses: &[Clause],
) -> Result<Step, AllocError>
    ensures { IfOk result (λ step. said_of step ≡ supposes (around_of around.entry).set (seen_of sight.entry) (sayings (which_of which) (clauses_in clauses.now))) }
{
    for k in clauses {
        if is_which(which, k.is_free) && is_kept(around.set, k.candidate) {
            match assumed(worth(around.alloc, sight, &k.formula)?) {
                Step::Goes => {}
                Step::Over(e) => return Ok(Step::Over(e)),
            }
        }
    }
    Ok(Step::Goes)
}
