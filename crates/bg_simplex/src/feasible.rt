//! Values within all bounds are found, or bounds that clash.
use crate::entering::{entering, leaving};
use crate::fraction::whole;
use crate::multiple::Multiple;
use crate::pivot::pivot;
use crate::refute::refute;
use crate::simplex::{Simplex, rest_without_bounds};
use std::alloc::{AllocError, Global};

/// How many pivots a check takes at most.
const MOST_PIVOTS: u32 = 10_000;

/// From which pivot on the lowest column enters.
const FROM_BLAND: u32 = 30;

/// Finds values within all bounds, or a line that shows that there are none: then it answers true, and behind those that are in `clash`
/// stand multiples of literals' rows whose sum is false. Where a number leaves 128 bits, or after many pivots, the tableau is broken.
/// Only want of memory is an error; the tableau is of no use after it.
pub fn check(
    alloc: Global,
    s: &mut Simplex,
    clash: &mut Vec<Multiple>,
) -> Result<bool, AllocError> {
    for turn in 0..MOST_PIVOTS {
        if s.tableau.broken {
            return Ok(false);
        }
        let Some(out) = leaving(s) else {
            return Ok(false);
        };
        match entering(s, out, turn >= FROM_BLAND) {
            Some(column) => {
                let v = whole(out.bound.value);
                pivot(alloc, &mut s.tableau, out.line, column, v)?;
                rest_without_bounds(s, column);
            }
            None => return refute(s, out, clash),
        }
    }
    s.tableau.broken = true;
    Ok(false)
}
