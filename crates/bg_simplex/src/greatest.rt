//! Greatest and least values.
use crate::entering::is_free;
use crate::fraction::{Fraction, ceiling, floor, minus, plus, whole};
use crate::pivot::pivot;
use crate::ratio::limit_of;
use crate::simplex::Simplex;
use crate::sums::wake;
use crate::tableau::{line_at, shift, value_at};
use std::alloc::{AllocError, Global};

/// How many moves the way to a greatest value takes at most.
const MOST_MOVES: u32 = 200;

/// A column that isn't basic by whose move a column moves up, or down, with the side to which it moves; none where all that could are at
/// their bounds.
fn mover(s: &Simplex, column: u32, up: bool) -> Option<(u32, bool)> {
    let Some(line) = line_at(&s.tableau, column) else {
        return if is_free(s, column, up) {
            Some((column, up))
        } else {
            None
        };
    };
    for part in &s.tableau.lines.get(line as usize)?.parts {
        let rises = (part.by.num > 0) == up;
        if is_free(s, part.column, rises) {
            return Some((part.column, rises));
        }
    }
    None
}

/// The value, by so much higher or lower.
fn moved(v: Fraction, up: bool, way: Fraction) -> Fraction {
    if up { plus(v, way) } else { minus(v, way) }
}

/// Moves a column up, or down, as far as the bounds let it. False where nothing stops it: then it isn't moved.
fn step(alloc: Global, s: &mut Simplex, column: u32, up: bool) -> Result<bool, AllocError> {
    match limit_of(s, column, up) {
        Some(found) => match found.line {
            Some((line, bound)) => {
                pivot(alloc, &mut s.tableau, line, column, whole(bound))?;
                Ok(true)
            }
            None => {
                let v = moved(value_at(&s.tableau, column), up, found.way);
                shift(&mut s.tableau, column, v);
                Ok(true)
            }
        },
        None => Ok(false),
    }
}

/// The greatest (or, where `up` is false, the least) value that the bounds allow a column, rounded to the whole number within: a primal
/// simplex, begun at values that `check` found, and values stay within all bounds. None where there is none, or where it isn't found
/// in a few moves. Only want of memory is an error; the tableau is of no use after it.
pub fn most(
    alloc: Global,
    s: &mut Simplex,
    column: u32,
    up: bool,
) -> Result<Option<i128>, AllocError> {
    wake(alloc, &mut s.tableau, column)?;
    for _ in 0..MOST_MOVES {
        if s.tableau.broken {
            return Ok(None);
        }
        let Some((x, rises)) = mover(s, column, up) else {
            let v = value_at(&s.tableau, column);
            return Ok(Some(if up { floor(v) } else { ceiling(v) }));
        };
        if !step(alloc, s, x, rises)? {
            return Ok(None);
        }
    }
    Ok(None)
}
