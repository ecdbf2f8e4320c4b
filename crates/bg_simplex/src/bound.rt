//! Bounds of columns: who set them, and how they are taken back.
use std::alloc::{AllocError, Global};

/// A literal, by a number of the caller's. Where it is true it bounds a column.
pub type Lit = u32;

/// A bound of a column, and the literal that set it.
#[derive(Clone, Copy)]
pub struct Bound {
    pub value: i128,
    pub by: Lit,
}

/// A side of a column, and its bound before a change.
#[derive(Clone, Copy)]
pub struct Undo {
    pub column: u32,
    pub upper: bool,
    pub old: Option<Bound>,
}

/// The lower and the upper bound of each column, and what was changed, in order.
#[derive(Drop)]
pub struct Bounds {
    pub lows: Vec<Option<Bound>>,
    pub highs: Vec<Option<Bound>>,
    pub undo: Vec<Undo>,
}

/// The bounds of no columns.
pub fn new_bounds(alloc: Global) -> Bounds {
    Bounds {
        lows: Vec::new(alloc),
        highs: Vec::new(alloc),
        undo: Vec::new(alloc),
    }
}

/// One column more, without bounds.
pub fn add_column(b: &mut Bounds) -> Result<(), AllocError> {
    b.lows.push(None)?;
    b.highs.push(None)?;
    Ok(())
}

/// The upper or the lower bound of a column, if it has one.
pub fn bound_at(b: &Bounds, column: u32, upper: bool) -> Option<Bound> {
    let side = if upper { &b.highs } else { &b.lows };
    match side.get(column as usize) {
        Some(bound) => *bound,
        None => None,
    }
}

/// Whether a side of a column has a bound.
pub fn is_bound(b: &Bounds, column: u32, upper: bool) -> bool {
    let side = if upper { &b.highs } else { &b.lows };
    matches!(side.get(column as usize), Some(Some(_)))
}

/// Whether a column has a bound.
pub fn has_bounds(b: &Bounds, column: u32) -> bool {
    is_bound(b, column, false) || is_bound(b, column, true)
}

/// Puts a bound, or none, at a column.
fn put_at(side: &mut Vec<Option<Bound>>, column: u32, bound: Option<Bound>) {
    if let Some(place) = side.get_mut(column as usize) {
        *place = bound;
    }
}

/// Puts a bound, or none, at a side of a column.
fn put(b: &mut Bounds, column: u32, upper: bool, bound: Option<Bound>) {
    if upper {
        put_at(&mut b.highs, column, bound);
    } else {
        put_at(&mut b.lows, column, bound);
    }
}

/// Puts a bound at a side of a column, and keeps the one that was there.
pub fn change(b: &mut Bounds, column: u32, upper: bool, bound: Bound) -> Result<(), AllocError> {
    let old = bound_at(b, column, upper);
    b.undo.push(Undo { column, upper, old })?;
    put(b, column, upper, Some(bound));
    Ok(())
}

/// Takes back the last change. Answers its column.
pub fn restore(b: &mut Bounds) -> Option<u32> {
    let undo = b.undo.pop()?;
    put(b, undo.column, undo.upper, undo.old);
    Some(undo.column)
}
