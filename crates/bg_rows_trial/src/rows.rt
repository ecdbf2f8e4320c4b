//! Each public call on rows once, at values made by hand and at the ends of the range.
use crate::made::{Given, row, rows};
use bg_base::{Op, OutOfRange};
use bg_rows::{Refused, Row, Step, are_opposite, combine, copy, deny, derives, eliminate, tighten};
use std::alloc::Global;
use std::test::Fail;

/// A call on rows.
#[derive(Clone, Copy)]
enum Call {
    Tighten(Given),
    Deny(Given),
    Copy(Given),
    Eliminate(Given, Given, u32),
    Combine(Given, i128, Given, i128),
}

const LEAST: i128 = i128::MIN;

const MOST: i128 = i128::MAX;

const LOW: Given = (&[(1, -2)], -5);

const UP: Given = (&[(1, 2), (3, 4)], 7);

const EDGE: Given = (&[(0, LEAST)], LEAST);

const FAR: Given = (&[(0, 1)], MOST);

const MADE: [(Call, Given); 10] = [
    (Call::Tighten(LOW), (&[(1, -1)], -3)),
    (Call::Tighten(UP), (&[(1, 1), (3, 2)], 3)),
    (Call::Tighten((&[], -7)), (&[], -7)),
    (Call::Tighten(EDGE), (&[(0, -1)], -1)),
    (Call::Eliminate(UP, LOW, 1), (&[(3, 4)], 2)),
    (Call::Combine(LOW, 3, UP, 1), (&[(1, -4), (3, 4)], -8)),
    (Call::Combine(LOW, 0, UP, 0), (&[], 0)),
    (Call::Deny(UP), (&[(1, -2), (3, -4)], -8)),
    (Call::Deny(FAR), (&[(0, -1)], LEAST)),
    (Call::Copy(UP), UP),
];

const LEAVES: [(Call, Op, i128, i128); 4] = [
    (Call::Deny(EDGE), Op::Negate, LEAST, 0),
    (Call::Eliminate(FAR, EDGE, 0), Op::Negate, LEAST, 0),
    (Call::Combine(FAR, 1, FAR, 1), Op::Plus, MOST, MOST),
    (Call::Combine(EDGE, 2, FAR, 1), Op::Times, 2, LEAST),
];

/// What a call answers.
fn answer(alloc: Global, call: Call) -> Result<Result<Row, Refused>, Fail> {
    match call {
        Call::Tighten(a) => Ok(Ok(tighten(alloc, &row(alloc, a)?)?)),
        Call::Deny(a) => Ok(deny(alloc, &row(alloc, a)?)),
        Call::Copy(a) => Ok(Ok(copy(alloc, &row(alloc, a)?)?)),
        Call::Combine(a, k, b, l) => {
            if k < 0 || l < 0 {
                return Err("a multiplier is below 0".into());
            }
            Ok(combine(alloc, &row(alloc, a)?, k, &row(alloc, b)?, l))
        }
        Call::Eliminate(a, b, x) => {
            let (a, b) = (row(alloc, a)?, row(alloc, b)?);
            if are_opposite(&a, &b, x) {
                Ok(eliminate(alloc, &a, &b, x))
            } else {
                Err("signs are alike".into())
            }
        }
    }
}

fn makes(alloc: Global, call: Call, wanted: Given) -> Result<bool, Fail> {
    match answer(alloc, call)? {
        Ok(a) => Ok(
            a.bound == wanted.1
                && a.entries.len() == wanted.0.len()
                && a.entries
                    .iter()
                    .zip(wanted.0)
                    .all(|(t, u)| t.variable == u.0 && t.by == u.1),
        ),
        Err(_) => Ok(false),
    }
}

fn leaves(alloc: Global, call: Call, wanted: OutOfRange) -> Result<bool, Fail> {
    match answer(alloc, call)? {
        Err(Refused::Range(e)) => Ok(e == wanted),
        _ => Ok(false),
    }
}

#[test]
fn rows_are_exact_or_leave_the_range(rt: HostRuntime) -> Result<(), Fail> {
    for (call, wanted) in &MADE {
        assert!(rt; makes(rt.alloc(), *call, *wanted)?);
    }
    for (call, op, a, b) in &LEAVES {
        let (op, a, b) = (*op, *a, *b);
        assert!(rt; leaves(rt.alloc(), *call, OutOfRange { op, a, b })?);
    }
    Ok(())
}

/// 5 <= 2x and 2x <= 5.
const PATH: [Given; 2] = [(&[(0, -2)], -5), (&[(0, 2)], 5)];

/// Steps, and whether they derive a false row: rows that aren't tightened don't, nor does a row that comes
/// later, nor a negative multiplier.
const STEPS: [(&[Step], bool); 4] = [
    (
        &[
            Step::Path(0),
            Step::Path(1),
            Step::Tight(0),
            Step::Tight(1),
            Step::Sum(2, 1, 3, 1),
        ],
        true,
    ),
    (
        &[Step::Path(0), Step::Path(1), Step::Sum(0, 1, 1, 1)],
        false,
    ),
    (&[Step::Path(0), Step::Sum(0, 1, 1, 1)], false),
    (&[Step::Path(0), Step::Sum(0, -1, 0, 1)], false),
];

#[test]
fn derivations_are_told_from_what_is_none(rt: HostRuntime) -> Result<(), Fail> {
    let alloc = rt.alloc();
    let path = rows(alloc, &PATH)?;
    for (steps, is_one) in &STEPS {
        assert!(rt; derives(alloc, &path, steps)? == *is_one);
    }
    Ok(())
}
