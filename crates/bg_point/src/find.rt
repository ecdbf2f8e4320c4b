//! Near points.
ghost use Rattle.std.specs.Prelude.{◌≡◌, ◌<◌, length, List, map, IfOk};
ghost use Rattle.bg_rows.specs.Rows.{RowOf, row_of};
ghost use Rattle.bg_elim.specs.Answers.{SolvedBy};
ghost use Rattle.bg_point.specs.Points.{value_of, target_of};
ghost use Rattle.bg_point.specs.Spans.{IsNext};
ghost use Rattle.bg_point.specs.Shelves.{IsShelved, place_in};
ghost use Rattle.bg_point.specs.Answers.{IsPlaced};

use crate::allow::span_of;
use crate::choose::choose;
use crate::shelves::{Shelves, shelve};
use crate::span::{Choice, Mark, Next};
use crate::spot::{Far, Gap, Placed, Spot};
use bg_elim::Order;
use std::alloc::{AllocError, Global};

/// The variable with its value.
fn spot(x: u32, mark: &Mark) -> Spot
    ensures { result ≡ record { variable = x; value = mark.now.value; reason = mark.now.row } }
{
    Spot {
        variable: x,
        value: mark.value,
        reason: mark.row,
    }
}

/// The target of a variable; 0 where the list has ended.
fn target_of(targets: &[i128], x: u32) -> i128
    ensures { result ≡ target_of targets.now x }
{
    match targets.get(x as usize) {
        Some(z) => *z,
        None => 0,
    }
}

/// The next value: the nearest to its target that the rows allow the variable.
fn next(
    order: &Order,
    shelves: &Shelves,
    targets: &[i128],
    spots: &[Spot],
    p: usize,
    x: u32,
) -> Next
    requires shelved { IsShelved order.now.variables.items (map row_of order.now.rows.items) shelves.now }
    requires here { place_in order.now.variables.items x ≡ p }
    requires there { p < length order.now.variables.items }
    ensures { IsNext (target_of targets.now) order.now.variables.items (map row_of order.now.rows.items) (value_of spots.now) x result }
{
    match span_of(&order.variables, shelves, spots, p, x, &order.rows) {
        Err((row, operation)) => Next::Refused(Far {
            variable: x,
            row,
            operation,
        }),
        Ok(span) => match choose(target_of(targets, x), span) {
            Choice::Value(mark) => Next::Value(spot(x, &mark)),
            Choice::Empty { below, low, up } => Next::Empty(Gap {
                variable: x,
                below,
                low,
                up,
            }),
        },
    }
}

/// A near point, read off an order from its last variable on: each variable has the whole number
/// nearest to its target that the kept rows without earlier variables allow. A gap where they allow
/// none; or the first operation that leaves 128 bits. The targets are any numbers of 128 bits, one
/// for each variable by its number; a variable behind the end of the list has target 0.
pub fn point(alloc: Global, order: &Order, targets: &[i128]) -> Result<Placed, AllocError>
    requires solved { (given : List RowOf) × SolvedBy given order.now }
    ensures { IfOk result (λ p. IsPlaced (target_of targets.now) order.now p) }
{
    let shelves = shelve(alloc, &order.variables, &order.rows)?;
    let mut spots = Vec::new(alloc);
    let mut i = order.variables.len();
    while i > 0 {
        i -= 1;
        let x = order.variables[i];
        match next(order, &shelves, targets, &spots, i, x) {
            Next::Value(spot) => spots.push(spot)?,
            Next::Empty(gap) => return Ok(Placed::Split(spots, gap)),
            Next::Refused(far) => return Ok(Placed::Unknown(spots, far)),
        }
    }
    Ok(Placed::Point(spots))
}
