//! How far a column may move: the ratio test.
use crate::bound::bound_at;
use crate::fraction::{Fraction, inverse, minus, negated, times, whole};
use crate::simplex::Simplex;
use crate::tableau::{count_seats, use_of, user_at, value_at};

/// How far a column may move, and the line whose basic column is at its bound then, with that bound; no line where it is at its own.
#[derive(Clone, Copy)]
pub struct Limit {
    pub way: Fraction,
    pub line: Option<(u32, i128)>,
}

/// The way from a column's value to its upper or lower bound, if it has one, and the bound.
fn way_to(s: &Simplex, column: u32, up: bool) -> Option<(Fraction, i128)> {
    let bound = bound_at(&s.bounds, column, up)?;
    let way = minus(whole(bound.value), value_at(&s.tableau, column));
    Some((way, bound.value))
}

/// How far a column may move up, or down, until the basic column of a line is at its bound.
fn limit_by(s: &Simplex, line: u32, column: u32, up: bool) -> Option<Limit> {
    let (basic, by) = use_of(&s.tableau, line, column)?;
    let (way, bound) = way_to(s, basic, (by.num > 0) == up)?;
    let way = times(way, inverse(by));
    Some(Limit {
        way: if up { way } else { negated(way) },
        line: Some((line, bound)),
    })
}

/// The nearer one of two limits; the first where both are as near.
fn nearer(a: Option<Limit>, b: Option<Limit>) -> Option<Limit> {
    match (a, b) {
        (Some(x), Some(y)) => { if minus(x.way, y.way).num > 0 { b } else { a } }
        (None, b) => b,
        (a, None) => a,
    }
}

/// How far a column that isn't basic may move up, or down; none where nothing stops it.
pub fn limit_of(s: &Simplex, column: u32, up: bool) -> Option<Limit> {
    let mut found = match way_to(s, column, up) {
        Some((way, _)) => Some(Limit {
            way: if up { way } else { negated(way) },
            line: None,
        }),
        None => None,
    };
    for seat in 0..count_seats(&s.tableau, column) {
        if let Some(line) = user_at(&s.tableau, column, seat) {
            found = nearer(found, limit_by(s, line, column, up));
        }
    }
    found
}
