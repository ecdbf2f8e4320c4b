//! Which basic column is to leave the basis, and which column is to enter it.
use crate::bound::{Bound, Bounds, bound_at};
use crate::fraction::{Fraction, is_above, is_below};
use crate::numbers::{Numbers, let_go};
use crate::simplex::Simplex;
use crate::tableau::{Tableau, awake, count_users, value_at};

/// A basic column outside its bounds: its line, whether it is above its upper one, and the bound.
#[derive(Clone, Copy)]
pub struct Out {
    pub column: u32,
    pub line: u32,
    pub above: bool,
    pub bound: Bound,
}

/// Whether a value is outside a bound.
fn is_beyond(v: Fraction, bound: Bound, upper: bool) -> bool {
    if upper {
        is_above(v, bound.value)
    } else {
        is_below(v, bound.value)
    }
}

/// How a column is outside its bounds, if it is basic and is.
fn out_of(b: &Bounds, t: &Tableau, column: u32) -> Option<Out> {
    let line = awake(t, column)?;
    let v = value_at(t, column);
    for above in [false, true] {
        if let Some(bound) = bound_at(b, column, above) {
            if is_beyond(v, bound, above) {
                return Some(Out {
                    column,
                    line,
                    above,
                    bound,
                });
            }
        }
    }
    None
}

/// The one of the lower column.
fn lower(a: Option<Out>, b: Out) -> Option<Out> {
    match a {
        Some(a) if a.column < b.column => Some(a),
        _ => Some(b),
    }
}

/// The lowest basic column that is outside its bounds. Suspects that aren't are let go.
pub fn leaving(s: &mut Simplex) -> Option<Out> {
    let mut lowest = None;
    let mut kept: usize = 0;
    for at in 0..s.tableau.suspects.list.len() {
        if let Some(column) = s.tableau.suspects.list.get(at).copied() {
            match out_of(&s.bounds, &s.tableau, column) {
                Some(out) => {
                    lowest = lower(lowest, out);
                    keep(&mut s.tableau.suspects, kept, column);
                    kept = kept.saturating_add(1);
                }
                None => let_go(&mut s.tableau.suspects, column),
            }
        }
    }
    s.tableau.suspects.list.truncate(kept);
    lowest
}

/// Puts a number of the list at this place of it.
fn keep(n: &mut Numbers, at: usize, x: u32) {
    if let Some(place) = n.list.get_mut(at) {
        *place = x;
    }
}

/// Whether the bounds let a column move up, or down.
pub fn is_free(s: &Simplex, column: u32, up: bool) -> bool {
    let v = value_at(&s.tableau, column);
    match bound_at(&s.bounds, column, up) {
        Some(bound) if up => is_below(v, bound.value),
        Some(bound) => is_above(v, bound.value),
        None => true,
    }
}

/// A column of the line whose move brings the basic one nearer to its bound: the one that stands in the fewest lines, or the lowest
/// one where `lowest` asks for it (Bland, New finite pivoting rules for the simplex method, 1977). None where each is at its bound.
pub fn entering(s: &Simplex, out: Out, lowest: bool) -> Option<u32> {
    let line = s.tableau.lines.get(out.line as usize)?;
    let mut best = None;
    let mut fewest = usize::MAX;
    for part in &line.parts {
        if is_free(s, part.column, (part.by.num > 0) != out.above) {
            if lowest {
                return Some(part.column);
            }
            let count = count_users(&s.tableau, part.column);
            if count < fewest {
                fewest = count;
                best = Some(part.column);
            }
        }
    }
    best
}
