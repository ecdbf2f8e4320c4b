//! The tableau: columns with their values, lines, and which columns stand in which lines.
use crate::fraction::{Fraction, is_lost, minus, plus, times, whole};
use crate::line::{Line, Part, Zero, by_of};
use crate::numbers::{Numbers, hold, no_numbers, widen};
use crate::users::{Users, no_users};
use std::alloc::{AllocError, Global};

/// Each column's value, the line in which it is basic, and, if it isn't, the lines in which it stands; the parts of the sum for which
/// it was made to stand, none where it was made alone, and the columns that stand for sums in which it is a part, and how many of
/// these have a line that rests; the lines; the lines
/// that changed since they last told, or of which a bound did; the basic columns that may be outside their bounds; and room in which the
/// next parts of a line are made. Values meet all lines that don't rest.
#[derive(Drop)]
pub struct Tableau {
    pub values: Vec<Fraction>,
    pub line_of: Vec<Option<u32>>,
    pub users: Vec<Users>,
    pub given: Vec<Vec<Part>>,
    pub sums: Vec<Vec<u32>>,
    pub at_rest: Vec<usize>,
    pub lines: Vec<Line>,
    pub touched: Numbers,
    pub suspects: Numbers,
    pub room: Vec<Part>,
    /// A number left 128 bits, or an end is too far: what is here tells nothing.
    pub broken: bool,
}

/// A tableau without columns.
pub fn new_tableau(alloc: Global) -> Tableau {
    Tableau {
        values: Vec::new(alloc),
        line_of: Vec::new(alloc),
        users: Vec::new(alloc),
        given: Vec::new(alloc),
        sums: Vec::new(alloc),
        at_rest: Vec::new(alloc),
        lines: Vec::new(alloc),
        touched: no_numbers(alloc),
        suspects: no_numbers(alloc),
        room: Vec::new(alloc),
        broken: false,
    }
}

/// One column more, which stands for the sum of these parts and is basic in this line, or for none and in none.
pub fn push_column(
    alloc: Global,
    t: &mut Tableau,
    given: Vec<Part>,
    line: Option<u32>,
) -> Result<(), AllocError> {
    t.values.push(whole(0))?;
    t.line_of.push(line)?;
    t.users.push(no_users(alloc))?;
    t.given.push(given)?;
    t.sums.push(Vec::new(alloc))?;
    t.at_rest.push(0)?;
    widen(&mut t.suspects)
}

/// The parts that add up to 0 by a line: where it rests, those of the sum that was given.
pub fn zero_of(t: &Tableau, line: u32) -> Option<Zero<'_>> {
    let line = t.lines.get(line as usize)?;
    let basic = line.basic;
    let parts = if line.rests {
        t.given.get(basic as usize)?.as_slice()
    } else {
        line.parts.as_slice()
    };
    Some(Zero { parts, basic })
}

/// The value of a column; 0 where there is no such column.
pub fn value_at(t: &Tableau, column: u32) -> Fraction {
    match t.values.get(column as usize) {
        Some(v) => *v,
        None => whole(0),
    }
}

/// The line in which a column is basic.
pub fn line_at(t: &Tableau, column: u32) -> Option<u32> {
    match t.line_of.get(column as usize) {
        Some(line) => *line,
        None => None,
    }
}

/// Gives a column a value; a lost one breaks the tableau.
pub fn put_value(t: &mut Tableau, column: u32, v: Fraction) {
    if is_lost(v) {
        t.broken = true;
    }
    if let Some(place) = t.values.get_mut(column as usize) {
        *place = v;
    }
}

/// Says in which line a column is basic, if it is.
pub fn put_line(t: &mut Tableau, column: u32, line: Option<u32>) {
    if let Some(place) = t.line_of.get_mut(column as usize) {
        *place = line;
    }
}

/// The line in which a column stands that has this seat there, if one has.
pub fn user_at(t: &Tableau, column: u32, seat: usize) -> Option<u32> {
    match t.users.get(column as usize) {
        Some(users) => users.seats.get(seat).copied().flatten(),
        None => None,
    }
}

/// How many lines a column stands in, with those that rest and in whose sums it is a part.
pub fn count_users(t: &Tableau, column: u32) -> usize {
    let at = column as usize;
    match (t.users.get(at), t.at_rest.get(at)) {
        (Some(users), Some(more)) => users.count.saturating_add(*more),
        _ => 0,
    }
}

/// Notes, at the columns of a column's sum, that its line rests, or doesn't any more.
pub fn note_rest(t: &mut Tableau, column: u32, rests: bool) {
    let Some(given) = t.given.get(column as usize) else {
        return;
    };
    for part in given {
        if let Some(n) = t.at_rest.get_mut(part.column as usize) {
            *n = if rests {
                n.saturating_add(1)
            } else {
                n.saturating_sub(1)
            };
        }
    }
}

/// How many seats a column has for lines.
pub fn count_seats(t: &Tableau, column: u32) -> usize {
    match t.users.get(column as usize) {
        Some(users) => users.seats.len(),
        None => 0,
    }
}

/// The basic column of a line, and how many times a column stands in it.
pub fn use_of(t: &Tableau, line: u32, column: u32) -> Option<(u32, Fraction)> {
    let line = t.lines.get(line as usize)?;
    let by = by_of(&line.parts, column)?;
    Some((line.basic, by))
}

/// The line in which a column is basic, if it doesn't rest.
pub fn awake(t: &Tableau, column: u32) -> Option<u32> {
    let line = line_at(t, column)?;
    match t.lines.get(line as usize) {
        Some(place) if !place.rests => Some(line),
        _ => None,
    }
}

/// The line of a column, if it rests.
pub fn resting(t: &Tableau, column: u32) -> Option<u32> {
    let line = line_at(t, column)?;
    match t.lines.get(line as usize) {
        Some(place) if place.rests => Some(line),
        _ => None,
    }
}

/// Touches the lines that rest and in whose sums a column is a part.
fn touch_resting(t: &mut Tableau, column: u32) {
    let Some(sums) = t.sums.get(column as usize) else {
        return;
    };
    for i in 0..sums.len() {
        if let Some(line) = resting_sum(t, column, i) {
            hold(&mut t.touched, line);
        }
    }
}

/// The line of one of the columns in whose sums a column is a part, if it rests.
fn resting_sum(t: &Tableau, column: u32, at: usize) -> Option<u32> {
    let sums = t.sums.get(column as usize)?;
    resting(t, *sums.get(at)?)
}

/// Touches the lines in which a column stands, or the one in which it is basic. A basic column may be outside its bounds from now on.
pub fn touch(t: &mut Tableau, column: u32) {
    touch_resting(t, column);
    if let Some(line) = line_at(t, column) {
        hold(&mut t.touched, line);
        hold(&mut t.suspects, column);
    } else if let Some(users) = t.users.get(column as usize) {
        for seat in &users.seats {
            if let Some(line) = seat {
                hold(&mut t.touched, *line);
            }
        }
    }
}

/// Adds so much to the value of the basic column of a line, for each time that a column stands in it. Answers how many times it does,
/// if it does.
pub fn shift_basic(t: &mut Tableau, line: u32, column: u32, more: Fraction) -> Option<Fraction> {
    let (basic, by) = use_of(t, line, column)?;
    let v = plus(value_at(t, basic), times(by, more));
    put_value(t, basic, v);
    hold(&mut t.suspects, basic);
    Some(by)
}

/// Gives a value to a column that isn't basic, and with it to the basic column of each line in which it stands.
pub fn shift(t: &mut Tableau, column: u32, v: Fraction) {
    let more = minus(v, value_at(t, column));
    for seat in 0..count_seats(t, column) {
        if let Some(line) = user_at(t, column, seat) {
            let _by = shift_basic(t, line, column, more);
        }
    }
    put_value(t, column, v);
}
