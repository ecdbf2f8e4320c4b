//! Lines of sums of columns. A line rests until its column gets a bound, and from when it has none again, so that pivots have less to
//! put into other lines.
use crate::fraction::{Fraction, plus, times, whole};
use crate::line::{Line, Part};
use crate::merge::{has_lost, merged};
use crate::numbers::{hold, widen};
use crate::tableau::{
    Tableau, awake, line_at, note_rest, push_column, put_value, resting, value_at,
};
use crate::users::{join, leave};
use bg_rows::Entry;
use std::alloc::{AllocError, Global};
use std::mem;

/// The line in which a column is basic.
fn basic_line(t: &Tableau, column: u32) -> Option<&Line> {
    t.lines.get(line_at(t, column)? as usize)
}

/// Puts the parts of which the column isn't basic behind those made.
fn push_free(t: &Tableau, given: &[Part], made: &mut Vec<Part>) -> Result<(), AllocError> {
    for part in given {
        if line_at(t, part.column).is_none() {
            made.push(*part)?;
        }
    }
    Ok(())
}

/// The sum of these parts and of those that are given and basic, over columns that aren't.
fn with_basic(
    alloc: Global,
    t: &Tableau,
    given: &[Part],
    parts: Vec<Part>,
) -> Result<Vec<Part>, AllocError> {
    let mut parts = parts;
    for part in given {
        if let Some(line) = basic_line(t, part.column) {
            parts = merged(alloc, &parts, part.by, &line.parts)?;
        }
    }
    Ok(parts)
}

/// The value of a sum of parts.
fn value_of(t: &Tableau, given: &[Part]) -> Fraction {
    let mut value = whole(0);
    for part in given {
        value = plus(value, times(part.by, value_at(t, part.column)));
    }
    value
}

/// The line takes a seat among those of each of its columns.
fn use_columns(t: &mut Tableau, line: u32, parts: &mut [Part]) -> Result<(), AllocError> {
    for part in parts.iter_mut() {
        part.seat = join(&mut t.users, part.column, line)?;
    }
    Ok(())
}

/// The list of a line's parts, taken from it.
fn take_parts(alloc: Global, t: &mut Tableau, line: u32) -> Vec<Part> {
    match t.lines.get_mut(line as usize) {
        Some(place) => mem::replace(&mut place.parts, Vec::new(alloc)),
        None => Vec::new(alloc),
    }
}

/// The line of a column rests no more, if it did: its sum is put over columns that aren't basic. Where a number leaves 128 bits the
/// tableau is broken.
pub fn wake(alloc: Global, t: &mut Tableau, column: u32) -> Result<(), AllocError> {
    let Some(line) = resting(t, column) else {
        return Ok(());
    };
    let mut parts = take_parts(alloc, t, line);
    let Some(given) = t.given.get(column as usize) else {
        return Ok(());
    };
    push_free(t, given, &mut parts)?;
    let value = value_of(t, given);
    let mut parts = with_basic(alloc, t, given, parts)?;
    t.broken = t.broken || has_lost(&parts);
    use_columns(t, line, &mut parts)?;
    put_value(t, column, value);
    hold(&mut t.suspects, column);
    note_rest(t, column, false);
    if let Some(place) = t.lines.get_mut(line as usize) {
        place.parts = parts;
        place.rests = false;
    }
    Ok(())
}

/// Whether a column stands for a sum, and is a part of none.
fn may_rest(t: &Tableau, column: u32) -> bool {
    let at = column as usize;
    match (t.given.get(at), t.sums.get(at)) {
        (Some(given), Some(sums)) => !given.is_empty() && sums.is_empty(),
        _ => false,
    }
}

/// The line of a column without bounds rests from now on, where the column is basic and stands for a sum, and is a part of none.
pub fn rest(t: &mut Tableau, column: u32) {
    if !may_rest(t, column) {
        return;
    }
    let Some(line) = awake(t, column) else {
        return;
    };
    note_rest(t, column, true);
    if let Some(place) = t.lines.get_mut(line as usize) {
        for part in &place.parts {
            leave(&mut t.users, part.column, part.seat);
        }
        place.parts.clear();
        place.rests = true;
    }
}

/// Whether parts stand by column.
fn are_sorted(parts: &[Part]) -> bool {
    let mut last = 0;
    for part in parts {
        if part.column < last {
            return false;
        }
        last = part.column;
    }
    true
}

/// The parts of a sum, by column.
fn parts_of(alloc: Global, entries: &[Entry]) -> Result<Vec<Part>, AllocError> {
    let mut made = Vec::with_capacity(alloc, entries.len())?;
    for entry in entries {
        made.push(Part {
            column: entry.variable,
            seat: 0,
            by: whole(entry.by),
        })?;
    }
    if !are_sorted(&made) {
        made.sort_unstable_by_key(|p| p.column);
    }
    Ok(made)
}

/// A column is a part of these columns' sum: none of them rests from now on.
fn stand_in(alloc: Global, t: &mut Tableau, given: &[Part], column: u32) -> Result<(), AllocError> {
    for part in given {
        wake(alloc, t, part.column)?;
        if let Some(sums) = t.sums.get_mut(part.column as usize) {
            sums.push(column)?;
        }
    }
    Ok(())
}

/// One line more, which rests, and whose basic column is a new one that is worth the sum of these columns.
pub fn push_line(
    alloc: Global,
    t: &mut Tableau,
    basic: u32,
    line: u32,
    entries: &[Entry],
) -> Result<(), AllocError> {
    let given = parts_of(alloc, entries)?;
    stand_in(alloc, t, &given, basic)?;
    t.lines.push(Line {
        basic,
        parts: Vec::new(alloc),
        rests: true,
    })?;
    widen(&mut t.touched)?;
    push_column(alloc, t, given, Some(line))?;
    note_rest(t, basic, true);
    Ok(())
}
