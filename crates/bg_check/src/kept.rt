//! What is told of the cause of a place that is left unknown.
ghost use Rattle.std.specs.Prelude.{◌≡◌, length};
ghost use Rattle.bg_check.specs.Kept.{operation_of, end_of, why_of, told_kept};

use crate::verdict::{Cause, Round};
use bg_base::OutOfRange;
use bg_elim::Order;
use bg_tree::{Beyond, Why};

/// What is told of a cause: a number of nodes or of rows, or an operation that leaves 128 bits.
#[derive(Clone, Copy)]
pub enum Kept {
    Nodes(u128),
    Rows(u128),
    Range(OutOfRange),
}

/// The operation at which a search ends.
fn operation_of(beyond: &Beyond) -> OutOfRange
    ensures { result ≡ operation_of beyond.now }
{
    match beyond {
        Beyond::Elimination(_, further) => further.operation,
        Beyond::Value(_, _, far) => far.operation,
    }
}

/// How many rows are kept.
fn count(order: &Order) -> usize
    ensures { result ≡ length order.now.reasons.items }
{
    order.reasons.len()
}

/// Where a search ends behind so many rounds.
fn end(rounds: usize, why: &Why) -> Kept
    ensures { told_kept result ≡ end_of rounds why.now }
{
    match why {
        Why::Nodes(_, budget) => Kept::Nodes(*budget as u128 + rounds as u128),
        Why::Rows(_, order) => Kept::Rows(count(order) as u128),
        Why::Range(_, beyond) => Kept::Range(operation_of(beyond)),
    }
}

/// What is told of a cause behind these rounds, each of which counts as a node.
pub fn kept_of(rounds: &[Round], cause: &Cause) -> Kept
    ensures { told_kept result ≡ why_of (length rounds.now) cause.now }
{
    match cause {
        Cause::Search(why) => end(rounds.len(), why),
        Cause::Rounds => Kept::Nodes(rounds.len() as u128),
        Cause::Form(operation) => Kept::Range(*operation),
        Cause::Argument(_, operation) => Kept::Range(*operation),
        Cause::Replay(_, operation) => Kept::Range(*operation),
    }
}
