//! Rows are rewritten over the terms that stay.
use crate::equality::{Dep, Solved, solved_for};
use crate::equation::made_row;
use bg_rows::{Entry, Row, common_divisor, tighten};
use std::alloc::{AllocError, Global};
use std::mem;

/// A row without terms that are eliminated, and the equalities that were taken from it, in order.
#[derive(Drop)]
pub struct Rewritten {
    pub row: Row,
    pub deps: Vec<Dep>,
}

/// How a row was brought over the terms that stay: the equalities that were taken from it, in order, and by what the rest was divided.
#[derive(Drop)]
pub struct Reduced {
    pub deps: Vec<Dep>,
    pub divisor: u128,
}

/// The earlier one of two equalities.
fn earlier(a: Option<Dep>, b: Dep) -> Option<Dep> {
    match a {
        Some(a) if a.equality <= b.equality => Some(a),
        _ => Some(b),
    }
}

/// The earliest equality that eliminates a variable of these entries, as often as that stands there.
fn next(s: &Solved, entries: &[Entry]) -> Option<Dep> {
    let mut found = None;
    for t in entries {
        if let Some(equality) = solved_for(s, t.variable) {
            found = earlier(
                found,
                Dep {
                    equality,
                    times: t.by,
                },
            );
        }
    }
    found
}

/// How far the entries of two rows are read.
#[derive(Clone, Copy)]
struct Read {
    first: usize,
    second: usize,
}

/// The product; none where it leaves 128 bits. Mostly the second one is 1.
fn product(a: i128, times: i128) -> Option<i128> {
    if times == 1 {
        Some(a)
    } else {
        a.checked_mul(times)
    }
}

/// The entry of a variable that stands in both rows; none where a number leaves 128 bits.
fn both(t: Entry, u: Entry, times: i128) -> Option<Entry> {
    let by = t.by.checked_add(product(u.by, times)?)?;
    Some(Entry {
        variable: t.variable,
        by,
    })
}

/// So many times an entry; none where a number leaves 128 bits.
fn multiple(u: Entry, times: i128) -> Option<Entry> {
    let by = product(u.by, times)?;
    Some(Entry {
        variable: u.variable,
        by,
    })
}

/// The next entry of a row and so many times another, of which not both are read; none where a number leaves 128 bits.
fn next_sum(a: &[Entry], b: &[Entry], times: i128, read: &mut Read) -> Option<Entry> {
    match (a.get(read.first).copied(), b.get(read.second).copied()) {
        (Some(t), Some(u)) if t.variable == u.variable => {
            read.first = read.first.saturating_add(1);
            read.second = read.second.saturating_add(1);
            both(t, u, times)
        }
        (Some(t), Some(u)) if u.variable < t.variable => {
            read.second = read.second.saturating_add(1);
            multiple(u, times)
        }
        (Some(t), _) => {
            read.first = read.first.saturating_add(1);
            Some(t)
        }
        (None, Some(u)) => {
            read.second = read.second.saturating_add(1);
            multiple(u, times)
        }
        (None, None) => None,
    }
}

/// Puts the entries of a row and so many times another behind those made. False where a number leaves 128 bits.
fn push_sum(
    a: &[Entry],
    b: &[Entry],
    times: i128,
    made: &mut Vec<Entry>,
) -> Result<bool, AllocError> {
    let mut read = Read {
        first: 0,
        second: 0,
    };
    for _ in 0..a.len().saturating_add(b.len()) {
        if read.first >= a.len() && read.second >= b.len() {
            break;
        }
        let Some(t) = next_sum(a, b, times, &mut read) else {
            return Ok(false);
        };
        if t.by != 0 {
            made.push(t)?;
        }
    }
    Ok(true)
}

/// A row on the way: its entries and its bound, and room in which the next ones are made.
#[derive(Drop)]
struct Way {
    entries: Vec<Entry>,
    bound: i128,
    room: Vec<Entry>,
}

/// The half of an equality that is added where it is taken so many times, and how often.
fn half_of(s: &Solved, dep: Dep) -> Option<(&Row, i128)> {
    let e = s.equalities.get(dep.equality as usize)?;
    let times = dep.times.checked_abs()?;
    Some((if dep.times < 0 { &e.row } else { &e.opposite }, times))
}

/// The bound of a sum.
fn bound_of(bound: i128, half: &Row, times: i128) -> Option<i128> {
    bound.checked_add(product(half.bound, times)?)
}

/// Takes so many times an equality from a row. False where a number leaves 128 bits.
fn take(s: &Solved, way: &mut Way, dep: Dep) -> Result<bool, AllocError> {
    let Some((half, times)) = half_of(s, dep) else {
        return Ok(false);
    };
    let Some(bound) = bound_of(way.bound, half, times) else {
        return Ok(false);
    };
    way.bound = bound;
    way.room.clear();
    let is_made = push_sum(&way.entries, &half.entries, times, &mut way.room)?;
    mem::swap(&mut way.entries, &mut way.room);
    Ok(is_made)
}

/// The row without terms that are eliminated; none where a number leaves 128 bits. The equality that is taken is always the earliest
/// one, so that each is taken once.
pub fn rewrite(alloc: Global, s: &Solved, row: &Row) -> Result<Option<Rewritten>, AllocError> {
    let mut deps = Vec::new(alloc);
    let mut way = Way {
        entries: row.entries.to_vec(alloc)?,
        bound: row.bound,
        room: Vec::new(alloc),
    };
    for _ in 0..s.equalities.len() {
        let Some(dep) = next(s, &way.entries) else {
            break;
        };
        if !take(s, &mut way, dep)? {
            return Ok(None);
        }
        deps.push(dep)?;
    }
    match made_row(way.entries, way.bound) {
        Some(row) => Ok(Some(Rewritten { row, deps })),
        None => Ok(None),
    }
}

/// The opposite of what was taken from a row; none where a number leaves 128 bits.
fn opposite_deps(alloc: Global, deps: &[Dep]) -> Result<Option<Vec<Dep>>, AllocError> {
    let mut made = Vec::with_capacity(alloc, deps.len())?;
    for dep in deps {
        let Some(times) = dep.times.checked_neg() else {
            return Ok(None);
        };
        made.push(Dep {
            equality: dep.equality,
            times,
        })?;
    }
    Ok(Some(made))
}

/// The opposite entries; none where a number leaves 128 bits.
fn opposite_entries(alloc: Global, entries: &[Entry]) -> Result<Option<Vec<Entry>>, AllocError> {
    let mut made = Vec::with_capacity(alloc, entries.len())?;
    for t in entries {
        let Some(by) = t.by.checked_neg() else {
            return Ok(None);
        };
        made.push(Entry {
            variable: t.variable,
            by,
        })?;
    }
    Ok(Some(made))
}

/// What the opposite row is without terms that are eliminated; none where a number leaves 128 bits.
pub fn denied(alloc: Global, a: &Rewritten) -> Result<Option<Rewritten>, AllocError> {
    let (Some(entries), Some(bound)) = (
        opposite_entries(alloc, &a.row.entries)?,
        a.row.bound.checked_neg(),
    ) else {
        return Ok(None);
    };
    match (made_row(entries, bound), opposite_deps(alloc, &a.deps)?) {
        (Some(row), Some(deps)) => Ok(Some(Rewritten { row, deps })),
        _ => Ok(None),
    }
}

/// Whether a row is over the terms that stay, and tight, as it is given.
pub fn is_reduced(s: &Solved, row: &Row) -> bool {
    let mut has_unit = false;
    for t in &row.entries {
        if solved_for(s, t.variable).is_some() {
            return false;
        }
        has_unit = has_unit || t.by.unsigned_abs() == 1;
    }
    has_unit || common_divisor(&row.entries) <= 1
}

/// Nothing was done to a row.
pub fn as_given(alloc: Global) -> Reduced {
    Reduced {
        deps: Vec::new(alloc),
        divisor: 1,
    }
}

/// The row over the terms that stay, tightened, and how it was brought over them; none where a number leaves 128 bits. Only want of memory
/// is an error.
pub fn reduce(alloc: Global, s: &Solved, row: &Row) -> Result<Option<(Row, Reduced)>, AllocError> {
    match rewrite(alloc, s, row)? {
        Some(Rewritten { row, deps }) => {
            let divisor = common_divisor(&row.entries).max(1);
            let row = if divisor > 1 {
                tighten(alloc, &row)?
            } else {
                row
            };
            Ok(Some((row, Reduced { deps, divisor })))
        }
        None => Ok(None),
    }
}
