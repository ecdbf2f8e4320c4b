//! Points, gaps and refusals of rows made by hand.
use crate::made::{Given, rows};
use bg_elim::{Found, refute_or_order};
use bg_point::{Placed, point};
use std::alloc::Global;
use std::test::Fail;

/// A point with its first two values, of the last variable first, where they are asked for; a gap with its lower end;
/// or an operation with its operands.
#[derive(Clone, Copy)]
enum Told {
    Point(Option<(i128, i128)>),
    Gap(i128),
    Leaves(i128, i128),
}

/// 2 <= x and x <= 8.
const BETWEEN: &[Given] = &[(&[(0, -1)], -2), (&[(0, 1)], 8)];

/// Rows, targets, and what is told.
const TABLE: [(&[Given], &[i128], Told); 11] = [
    // 5 <= 2x and 2x <= 7
    (
        &[(&[(0, -2)], -5), (&[(0, 2)], 7)],
        &[],
        Told::Point(Some((3, 0))),
    ),
    (BETWEEN, &[], Told::Point(Some((2, 0)))),
    (BETWEEN, &[5], Told::Point(Some((5, 0)))),
    (BETWEEN, &[9, 5], Told::Point(Some((8, 0)))),
    (BETWEEN, &[i128::MIN], Told::Point(Some((2, 0)))),
    // x + y <= -1 holds at the targets
    (
        &[(&[(0, 1), (1, 1)], -1)],
        &[-4, -4],
        Told::Point(Some((-4, -4))),
    ),
    // 3x = 2y + 1: at y = 4 x is 3
    (
        &[(&[(0, 3), (1, -2)], 1), (&[(0, -3), (1, 2)], -1)],
        &[3, 4],
        Told::Point(Some((4, 3))),
    ),
    // x <= -2 and y >= x + 7
    (
        &[(&[(0, 1)], -2), (&[(0, 1), (1, -1)], -7)],
        &[],
        Told::Point(None),
    ),
    // 3x = 2y + 1: at y = 0 no x fits
    (
        &[(&[(0, 3), (1, -2)], 1), (&[(0, -3), (1, 2)], -1)],
        &[],
        Told::Gap(0),
    ),
    // y >= 2 and x <= -(2^127 - 1) y
    (
        &[(&[(1, -1)], -2), (&[(0, 1), (1, i128::MAX)], 0)],
        &[],
        Told::Leaves(i128::MAX, 2),
    ),
    // -x <= -2^127: the bound itself leaves the range
    (&[(&[(0, -1)], i128::MIN)], &[], Told::Leaves(i128::MIN, 0)),
];

fn tells(alloc: Global, given: &[Given], targets: &[i128], wanted: Told) -> Result<bool, Fail> {
    let Found::Solvable(order) = refute_or_order(alloc, &rows(alloc, given)?, 100)? else {
        return Ok(false);
    };
    match (point(alloc, &order, targets)?, wanted) {
        (Placed::Point(_), Told::Point(None)) => Ok(true),
        (Placed::Point(spots), Told::Point(Some((first, second)))) => {
            let value = |i: usize| spots.get(i).map_or(0, |s| s.value);
            Ok(value(0) == first && value(1) == second)
        }
        (Placed::Split(_, gap), Told::Gap(below)) => Ok(gap.below == below),
        (Placed::Unknown(_, far), Told::Leaves(a, b)) => {
            Ok(far.operation.a == a && far.operation.b == b)
        }
        _ => Ok(false),
    }
}

#[test]
fn points_gaps_and_refusals(rt: HostRuntime) -> Result<(), Fail> {
    for (given, targets, wanted) in &TABLE {
        assert!(rt; tells(rt.alloc(), given, targets, *wanted)?);
    }
    Ok(())
}
