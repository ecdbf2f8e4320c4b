//! Where the values of terms begin: at their targets.

use bg_simplex::{Bound, mark, set_bound, take_back};
use bg_trail::Engine;
use std::alloc::AllocError;

/// Brings a column to a value, by two bounds that are taken back.
fn bring(e: &mut Engine<'_>, column: u32, target: i128) -> Result<(), AllocError> {
    let stands = mark(&e.simplex);
    let bound = Bound {
        value: target,
        by: 0,
    };
    for upper in [false, true] {
        let _clash = set_bound(e.alloc, &mut e.simplex, column, upper, bound, false)?;
    }
    take_back(&mut e.simplex, stands);
    Ok(())
}

/// The column of a term alone, if it has one.
fn column_of(e: &Engine<'_>, x: usize) -> Option<u32> {
    match e.columns.terms.get(x) {
        Some(c) => *c,
        None => None,
    }
}

/// Brings the columns of terms to the terms' targets, where no column has a bound yet. What is within bounds is sought from there, so
/// terms with targets of their own are seldom equal without need.
pub fn aim(e: &mut Engine<'_>, targets: &[i128]) -> Result<(), AllocError> {
    for (x, target) in targets.iter().enumerate() {
        if *target != 0 {
            if let Some(c) = column_of(e, x) {
                bring(e, c, *target)?;
            }
        }
    }
    Ok(())
}
