//! Pivots.
use crate::fraction::{Fraction, inverse, is_lost, minus, negated, plus, times};
use crate::line::{Line, Part};
use crate::merge::has_lost;
use crate::numbers::hold;
use crate::tableau::{Tableau, put_line, put_value, shift_basic, use_of, value_at};
use crate::users::{Users, is_sparse, join, leave, no_users};
use std::alloc::{AllocError, Global};
use std::mem;

/// Puts behind those made the parts of `column`, where a line says that a basic column is the sum of these parts, in which `column`
/// stands 1 / `basic.by` times. The basic column is one of them from now on.
fn turn(parts: &[Part], basic: Part, column: u32, made: &mut Vec<Part>) -> Result<(), AllocError> {
    let k = negated(basic.by);
    let mut waits = true;
    for part in parts {
        if waits && basic.column < part.column {
            made.push(basic)?;
            waits = false;
        }
        if part.column != column {
            made.push(Part {
                column: part.column,
                seat: part.seat,
                by: times(k, part.by),
            })?;
        }
    }
    if waits {
        made.push(basic)?;
    }
    Ok(())
}

/// Puts the parts from a place on that stand before a column behind those made, but for one. Answers the place of the next.
fn keep_before(
    parts: &[Part],
    from: usize,
    before: u64,
    without: u32,
    made: &mut Vec<Part>,
) -> Result<usize, AllocError> {
    for at in from..parts.len() {
        let Some(part) = parts.get(at) else {
            return Ok(at);
        };
        if part.column as u64 >= before {
            return Ok(at);
        }
        if part.column != without {
            made.push(*part)?;
        }
    }
    Ok(parts.len())
}

/// Puts the sum of a line's part of a column and so much more behind those made. Where it is 0 the line leaves the column. Answers
/// whether a number left 128 bits.
fn add_to(
    users: &mut [Users],
    part: Part,
    more: Fraction,
    made: &mut Vec<Part>,
) -> Result<bool, AllocError> {
    let by = plus(part.by, more);
    if by.num == 0 && !is_lost(by) {
        leave(users, part.column, part.seat);
        return Ok(false);
    }
    made.push(Part {
        column: part.column,
        seat: part.seat,
        by,
    })?;
    Ok(is_lost(by))
}

/// Puts a part of a column in which the line didn't stand behind those made. Answers whether a number left 128 bits.
fn add_new(
    users: &mut [Users],
    line: u32,
    column: u32,
    by: Fraction,
    made: &mut Vec<Part>,
) -> Result<bool, AllocError> {
    let seat = join(users, column, line)?;
    made.push(Part { column, seat, by })?;
    Ok(is_lost(by))
}

/// Puts into `made` the parts of a line, in which those of another one stand in the place of a part. The line leaves the columns that
/// don't stand in it any more, and takes a seat among those of new ones. Answers whether a number left 128 bits. Both lists stand by
/// column, so each part is read once.
fn replace(
    users: &mut [Users],
    line: u32,
    parts: &[Part],
    part: Part,
    others: &[Part],
    made: &mut Vec<Part>,
) -> Result<bool, AllocError> {
    let mut at: usize = 0;
    let mut lost = false;
    for q in others {
        at = keep_before(parts, at, q.column as u64, part.column, made)?;
        let more = times(part.by, q.by);
        let is_lost = match parts.get(at) {
            Some(p) if p.column == q.column => {
                at = at.saturating_add(1);
                add_to(users, *p, more, made)?
            }
            _ => add_new(users, line, q.column, more, made)?,
        };
        lost = lost || is_lost;
    }
    let _end = keep_before(parts, at, u64::MAX, part.column, made)?;
    Ok(lost)
}

/// A line gets the parts for which room was made.
fn put_parts(t: &mut Tableau, line: u32, lost: bool) {
    t.broken = t.broken || lost;
    if let Some(place) = t.lines.get_mut(line as usize) {
        mem::swap(&mut place.parts, &mut t.room);
    }
    hold(&mut t.touched, line);
}

/// Puts what a line says of its basic column in that column's place in another line, after that column's value rose by so much.
fn substitute(
    t: &mut Tableau,
    line: u32,
    column: u32,
    more: Fraction,
    other: u32,
) -> Result<(), AllocError> {
    let Some(by) = shift_basic(t, other, column, more) else {
        return Ok(());
    };
    let (Some(told), Some(place)) = (t.lines.get(line as usize), t.lines.get(other as usize)) else {
        return Ok(());
    };
    let part = Part {
        column,
        seat: 0,
        by,
    };
    t.room.clear();
    let lost = replace(
        &mut t.users,
        other,
        &place.parts,
        part,
        &told.parts,
        &mut t.room,
    )?;
    put_parts(t, other, lost);
    Ok(())
}

/// A line's basic column changes places with `column`.
fn exchange(t: &mut Tableau, line: u32, column: u32, by: Fraction) -> Result<(), AllocError> {
    let Some(place) = t.lines.get_mut(line as usize) else {
        return Ok(());
    };
    let basic = place.basic;
    let seat = join(&mut t.users, basic, line)?;
    let part = Part {
        column: basic,
        seat,
        by,
    };
    t.room.clear();
    turn(&place.parts, part, column, &mut t.room)?;
    place.basic = column;
    let lost = has_lost(&t.room);
    put_parts(t, line, lost);
    put_line(t, basic, None);
    put_line(t, column, Some(line));
    hold(&mut t.suspects, column);
    Ok(())
}

/// The lines in which a column stands, taken from it.
fn take_users(alloc: Global, t: &mut Tableau, column: u32) -> Users {
    match t.users.get_mut(column as usize) {
        Some(users) => mem::replace(users, no_users(alloc)),
        None => no_users(alloc),
    }
}

/// Says of a line's part of a column which seat the line has there.
fn put_seat(lines: &mut [Line], line: u32, column: u32, seat: u32) {
    if let Some(place) = lines.get_mut(line as usize) {
        if let Ok(at) = place.parts.binary_search_by_key(&column, |p| p.column) {
            if let Some(part) = place.parts.get_mut(at) {
                part.seat = seat;
            }
        }
    }
}

/// Gives the lines of a column new seats, in their order, where most are empty.
fn reseat(alloc: Global, t: &mut Tableau, column: u32) -> Result<(), AllocError> {
    match t.users.get(column as usize) {
        Some(users) if is_sparse(users) => {}
        _ => return Ok(()),
    }
    for line in take_users(alloc, t, column).seats {
        if let Some(line) = line {
            let seat = join(&mut t.users, column, line)?;
            put_seat(&mut t.lines, line, column, seat);
        }
    }
    Ok(())
}

/// Gives the lines of the columns of a line new seats, where most are empty.
fn reseat_all(alloc: Global, t: &mut Tableau, line: u32) -> Result<(), AllocError> {
    let Some(place) = t.lines.get(line as usize) else {
        return Ok(());
    };
    for at in 0..place.parts.len() {
        if let Some(column) = column_at(t, line, at) {
            reseat(alloc, t, column)?;
        }
    }
    Ok(())
}

/// The column of a part of a line.
fn column_at(t: &Tableau, line: u32, at: usize) -> Option<u32> {
    let place = t.lines.get(line as usize)?;
    match place.parts.get(at) {
        Some(part) => Some(part.column),
        None => None,
    }
}

/// The basic column of a line gets this value, by a change of `column`'s, and the two change places: the line is solved for `column`,
/// which is put into the other lines. Takes time for the parts of the lines in which it stood.
pub fn pivot(
    alloc: Global,
    t: &mut Tableau,
    line: u32,
    column: u32,
    v: Fraction,
) -> Result<(), AllocError> {
    let Some((basic, by)) = use_of(t, line, column) else {
        t.broken = true;
        return Ok(());
    };
    let by = inverse(by);
    let more = times(minus(v, value_at(t, basic)), by);
    let to = plus(value_at(t, column), more);
    put_value(t, column, to);
    put_value(t, basic, v);
    let users = take_users(alloc, t, column);
    exchange(t, line, column, by)?;
    for other in users.seats {
        if let Some(other) = other {
            if other != line {
                substitute(t, line, column, more, other)?;
            }
        }
    }
    reseat_all(alloc, t, line)
}
