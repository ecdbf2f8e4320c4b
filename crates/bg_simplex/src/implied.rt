//! What lines tell of their columns' bounds.
use crate::bound::{Lit, bound_at, is_bound};
use crate::fraction::{
    Fraction, ceiling, floor, inverse, is_lost, minus, negated, plus, times, whole,
};
use crate::line::{Part, Zero, count_parts, part_at};
use crate::multiple::{Multiple, common_denominator, push_multiple};
use crate::numbers::let_go;
use crate::simplex::Simplex;
use crate::tableau::zero_of;
use std::alloc::AllocError;

/// A bound that a line tells of a column, rounded to the whole number within, with the line, and whether it is told by the greatest
/// value of the other columns' sum or by the least.
#[derive(Clone, Copy)]
pub struct Told {
    pub column: u32,
    pub upper: bool,
    pub value: i128,
    pub line: u32,
    pub greatest: bool,
}

/// How many of a sum's parts have no bound on the side that counts, and the column of the last of these.
#[derive(Clone, Copy)]
struct Missing {
    count: u32,
    column: u32,
}

/// The parts without a bound in the greatest value of a sum, and in the least.
#[derive(Clone, Copy)]
struct Sides {
    greatest: Missing,
    least: Missing,
}

/// Each part has a bound.
const NOTHING: Missing = Missing {
    count: 0,
    column: 0,
};

/// The bound that a part has in the greatest value of a sum, or in the least: its number and who set it.
fn bound_in(s: &Simplex, part: Part, greatest: bool) -> Option<(i128, Lit)> {
    let bound = bound_at(&s.bounds, part.column, (part.by.num > 0) == greatest)?;
    Some((bound.value, bound.by))
}

/// Counts a part's column, if it has no bound on this side.
fn miss(s: &Simplex, missing: &mut Missing, column: u32, upper: bool) {
    if !is_bound(&s.bounds, column, upper) {
        missing.count = missing.count.saturating_add(1);
        missing.column = column;
    }
}

/// The parts without a bound; not all, where several on each side have none.
fn missing_of(s: &Simplex, zero: Zero<'_>) -> Sides {
    let mut sides = Sides {
        greatest: NOTHING,
        least: NOTHING,
    };
    miss(s, &mut sides.greatest, zero.basic, false);
    miss(s, &mut sides.least, zero.basic, true);
    for part in zero.parts {
        if sides.greatest.count > 1 && sides.least.count > 1 {
            return sides;
        }
        let rises = part.by.num > 0;
        miss(s, &mut sides.greatest, part.column, rises);
        miss(s, &mut sides.least, part.column, !rises);
    }
    sides
}

/// The greatest, or the least, value of the sum of the parts that have a bound.
fn total(s: &Simplex, zero: Zero<'_>, greatest: bool) -> Fraction {
    let mut sum = whole(0);
    for at in 0..count_parts(zero) {
        let part = part_at(zero, at);
        if let Some((value, _)) = bound_in(s, part, greatest) {
            sum = plus(sum, times(part.by, whole(value)));
        }
    }
    sum
}

/// What is told of a part's column where all parts add up to 0, the others at most (or at least) to the sum without it.
fn told_of(s: &Simplex, line: u32, part: Part, sum: Fraction, greatest: bool) -> Option<Told> {
    let others = match bound_in(s, part, greatest) {
        Some((value, _)) => minus(sum, times(part.by, whole(value))),
        None => sum,
    };
    let value = times(negated(others), inverse(part.by));
    let upper = (part.by.num > 0) != greatest;
    if is_lost(value) {
        return None;
    }
    Some(Told {
        column: part.column,
        upper,
        value: if upper { floor(value) } else { ceiling(value) },
        line,
        greatest,
    })
}

/// Whether this is the only one that counts, if only one does.
fn is_or_any(only: Option<u32>, column: u32) -> bool {
    match only {
        Some(x) => x == column,
        None => true,
    }
}

/// Whether a column is wanted.
fn is_wanted(wanted: &[u32], column: u32) -> bool {
    match wanted.get(column as usize) {
        Some(count) => *count > 0,
        None => false,
    }
}

/// Whether a column is wanted of which a line tells: of this one, where it tells of one alone.
fn is_asked(zero: Zero<'_>, only: Option<u32>, wanted: &[u32]) -> bool {
    if let Some(column) = only {
        return is_wanted(wanted, column);
    }
    for at in 0..count_parts(zero) {
        if is_wanted(wanted, part_at(zero, at).column) {
            return true;
        }
    }
    false
}

/// What a line tells by the greatest value of its parts' sum, or by the least, of the columns that are wanted: of this one, if it tells of
/// one alone.
fn tell_side(
    s: &Simplex,
    number: u32,
    greatest: bool,
    only: Option<u32>,
    wanted: &[u32],
    out: &mut Vec<Told>,
) -> Result<(), AllocError> {
    let Some(zero) = zero_of(&s.tableau, number) else {
        return Ok(());
    };
    if !is_asked(zero, only, wanted) {
        return Ok(());
    }
    let sum = total(s, zero, greatest);
    for at in 0..count_parts(zero) {
        let part = part_at(zero, at);
        if is_wanted(wanted, part.column) && is_or_any(only, part.column) {
            if let Some(told) = told_of(s, number, part, sum, greatest) {
                out.push(told)?;
            }
        }
    }
    Ok(())
}

/// Of which column alone is told, if one part has no bound; None where several have none.
fn only_of(missing: Missing) -> Option<Option<u32>> {
    match missing.count {
        0 => Some(None),
        1 => Some(Some(missing.column)),
        _ => None,
    }
}

/// What a line tells, if it has at most so many parts.
fn tell_line(
    s: &Simplex,
    number: u32,
    longest: usize,
    wanted: &[u32],
    out: &mut Vec<Told>,
) -> Result<(), AllocError> {
    let sides = match zero_of(&s.tableau, number) {
        Some(zero) if zero.parts.len() <= longest => missing_of(s, zero),
        _ => return Ok(()),
    };
    if let Some(only) = only_of(sides.greatest) {
        tell_side(s, number, true, only, wanted, out)?;
    }
    if let Some(only) = only_of(sides.least) {
        tell_side(s, number, false, only, wanted, out)?;
    }
    Ok(())
}

/// Bounds that lines of at most `longest` parts tell of columns with `wanted[column] > 0`, put behind those in `out`. Only lines are
/// asked that changed since the last call, or of which a bound did. Only want of memory is an error.
pub fn tell(
    s: &mut Simplex,
    wanted: &[u32],
    longest: usize,
    out: &mut Vec<Told>,
) -> Result<(), AllocError> {
    for _ in 0..s.tableau.touched.list.len() {
        if let Some(line) = s.tableau.touched.list.pop() {
            let_go(&mut s.tableau.touched, line);
            if !s.tableau.broken {
                tell_line(s, line, longest, wanted, out)?;
            }
        }
    }
    Ok(())
}

/// The literal that counts for a part: that of its bound, or for the column of which it is told the one that denies what follows.
fn lit_of(s: &Simplex, part: Part, told: Told, denied: Lit) -> Option<Lit> {
    if part.column == told.column {
        return Some(denied);
    }
    match bound_in(s, part, told.greatest) {
        Some((_, by)) => Some(by),
        None => None,
    }
}

/// Puts the multiples of a line's parts behind those in `why`. False where one has no bound or leaves 128 bits.
fn push_parts(
    s: &Simplex,
    zero: Zero<'_>,
    told: Told,
    denied: Lit,
    why: &mut Vec<Multiple>,
) -> Result<bool, AllocError> {
    let by = common_denominator(zero.parts);
    for at in 0..count_parts(zero) {
        let part = part_at(zero, at);
        let Some(lit) = lit_of(s, part, told, denied) else {
            return Ok(false);
        };
        if !push_multiple(why, lit, part.by, by)? {
            return Ok(false);
        }
    }
    Ok(true)
}

/// Why a bound is told: multiples of literals' rows whose sum is false, put behind those in `why`. They are those of the bounds that
/// tell it, and of `denied`, whose bound on the column begins where the one that is told ends. It is to be asked before any bound
/// changes. False where a number leaves 128 bits: then nothing is put. Only want of memory is an error.
pub fn explain(
    s: &Simplex,
    told: Told,
    denied: Lit,
    why: &mut Vec<Multiple>,
) -> Result<bool, AllocError> {
    let from = why.len();
    if let Some(zero) = zero_of(&s.tableau, told.line) {
        if push_parts(s, zero, told, denied, why)? {
            return Ok(true);
        }
    }
    why.truncate(from);
    Ok(false)
}
