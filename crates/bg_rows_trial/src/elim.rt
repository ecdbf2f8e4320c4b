//! What elimination answers about rows made by hand, and which variables go first.
use crate::made::{Given, rows};
use bg_base::Op;
use bg_elim::{Found, Stop, refute_or_order};
use bg_rows::{Row, derives};
use std::alloc::Global;
use std::test::Fail;

/// 5 <= 2x and 2x <= 5: no whole number.
const PARITY: &[Given] = &[(&[(0, -2)], -5), (&[(0, 2)], 5)];

/// x < y, y < z, z < x.
const CIRCLE: &[Given] = &[
    (&[(0, 1), (1, -1)], -1),
    (&[(1, 1), (2, -1)], -1),
    (&[(0, -1), (2, 1)], -1),
];

/// x <= y, y <= z, z <= x.
const EQUAL: &[Given] = &[
    (&[(0, 1), (1, -1)], 0),
    (&[(1, 1), (2, -1)], 0),
    (&[(0, -1), (2, 1)], 0),
];

/// x + y <= 2^127 - 1 and y - x <= 2^127 - 1: their sum leaves the range.
const WIDE: &[Given] = &[
    (&[(0, 1), (1, 1)], i128::MAX),
    (&[(0, -1), (1, 1)], i128::MAX),
    (&[(1, -1)], 0),
];

/// -2^127 x + y <= 0 and x <= y: a multiplier of 2^127.
const STEEP: &[Given] = &[(&[(0, i128::MIN), (1, 1)], 0), (&[(0, 1), (1, -1)], 0)];

/// y is not below 0, and x + y and y - x are at most 98, 99 and 100.
const FURTHER: &[Given] = &[
    (&[(1, -1)], 0),
    (&[(0, 1), (1, 1)], 98),
    (&[(0, -1), (1, 1)], 98),
    (&[(0, 1), (1, 1)], 99),
    (&[(0, -1), (1, 1)], 99),
    (&[(0, 1), (1, 1)], 100),
    (&[(0, -1), (1, 1)], 100),
];

/// The same, where each row comes nearer.
const NEARER: &[Given] = &[
    (&[(1, -1)], 0),
    (&[(0, 1), (1, 1)], 100),
    (&[(0, -1), (1, 1)], 100),
    (&[(0, 1), (1, 1)], 99),
    (&[(0, -1), (1, 1)], 99),
    (&[(0, 1), (1, 1)], 98),
    (&[(0, -1), (1, 1)], 98),
];

/// Rows, a budget, what is found ('r' a derivation, 's' an order, 'f' as many rows as the budget says, 'n' a negation that
/// leaves the range, 'l' another operation), and how many steps or rows, where that is worked out by hand. Of many bounds
/// of the same sum the nearest alone is paired: beside those given there are 2y <= 196 and y <= 98.
const TABLE: [(&[Given], u32, char, Option<usize>); 12] = [
    (PARITY, 100, 'r', None),
    (PARITY, 3, 'f', Some(3)),
    (PARITY, 1, 'f', Some(1)),
    (CIRCLE, 100, 'r', None),
    (EQUAL, 100, 's', None),
    (&[], 0, 's', Some(0)),
    (&[(&[], 0)], 0, 's', Some(0)),
    (&[(&[], 0), (&[], -1)], 0, 'r', Some(1)),
    (WIDE, 100, 'l', None),
    (STEEP, 100, 'n', None),
    (NEARER, 1_000, 's', Some(9)),
    (FURTHER, 1_000, 's', Some(9)),
];

/// The letter of what is found, and how many steps or rows; an 'x' where the steps derive no false row.
fn told(alloc: Global, rows: &[Row], budget: u32) -> Result<(char, usize), Fail> {
    match refute_or_order(alloc, rows, budget)? {
        Found::Refuted(steps) => {
            let is_right = derives(alloc, rows, &steps)?;
            Ok((if is_right { 'r' } else { 'x' }, steps.len()))
        }
        Found::Solvable(order) => Ok(('s', order.rows.len())),
        Found::Unknown(Stop::Rows(order)) => Ok(('f', order.rows.len())),
        Found::Unknown(Stop::Range(order, further)) => {
            let is_sign = further.operation.op == Op::Negate;
            Ok((if is_sign { 'n' } else { 'l' }, order.rows.len()))
        }
    }
}

#[test]
fn rows_are_refuted_or_ordered(rt: HostRuntime) -> Result<(), Fail> {
    for (given, budget, letter, count) in &TABLE {
        let (found, many) = told(rt.alloc(), &rows(rt.alloc(), given)?, *budget)?;
        assert!(rt; found == *letter && count.unwrap_or(many) == many);
    }
    Ok(())
}

/// Rows, and the variables that go first.
const FIRST: [(&[Given], &[u32]); 3] = [
    // 2x <= z, -2x <= z, and y is bounded by z twice from above and twice from below: all whole numbers are kept without y
    (
        &[
            (&[(0, 2), (2, -1)], 0),
            (&[(0, -2), (2, -1)], 0),
            (&[(1, 1), (2, -1)], 0),
            (&[(1, 1), (2, 1)], 0),
            (&[(1, -1), (2, -1)], 0),
            (&[(1, -1), (2, 1)], 0),
        ],
        &[1],
    ),
    // where x is bounded by whole numbers on one side, its one pair is less than y's four
    (
        &[
            (&[(0, 2), (2, -1)], 0),
            (&[(0, -1), (2, -1)], 0),
            (&[(1, 1), (2, -1)], 0),
            (&[(1, 1), (2, 1)], 0),
            (&[(1, -1), (2, -1)], 0),
            (&[(1, -1), (2, 1)], 0),
        ],
        &[0],
    ),
    // variable 0 makes no pairs; behind it four rows of variable 1 are gone, and the pairs that they made
    (
        &[
            (&[(0, 1), (1, 1)], 0),
            (&[(0, 2), (1, 1)], 0),
            (&[(0, 3), (1, 1)], 0),
            (&[(0, 1), (1, -1)], 0),
            (&[(1, 1)], 5),
            (&[(1, -1)], 5),
            (&[(2, 1), (3, 1)], 4),
            (&[(2, 1), (3, -1)], 4),
            (&[(2, -1)], 5),
            (&[(3, -1)], 5),
        ],
        &[0, 1],
    ),
];

fn starts(alloc: Global, given: &[Given], first: &[u32]) -> Result<bool, Fail> {
    match refute_or_order(alloc, &rows(alloc, given)?, 1_000)? {
        Found::Solvable(order) => Ok(order.variables.starts_with(first)),
        _ => Ok(false),
    }
}

/// A variable goes first that makes few pairs of rows, and first of all one of which no whole number is lost.
#[test]
fn cheap_variables_go_first(rt: HostRuntime) -> Result<(), Fail> {
    for (given, first) in &FIRST {
        assert!(rt; starts(rt.alloc(), given, first)?);
    }
    Ok(())
}
