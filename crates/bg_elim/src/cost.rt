//! What the elimination of a variable costs. What is counted here decides which variable goes first, and so which order and which
//! rows are answered; that they are right doesn't depend on it.
use bg_rows::{Entry, Row};
use std::collections::BTreeMap;

/// How many times a pair counts of which whole numbers may be lost.
const INEXACT: u64 = 16;

/// How many live rows bound a variable from above and from below, and how many of them have a
/// coefficient other than 1 or -1.
#[derive(Clone, Copy)]
pub struct Sides {
    pub ups: u64,
    pub lows: u64,
    pub steep_ups: u64,
    pub steep_lows: u64,
}

/// No rows.
pub fn no_sides() -> Sides {
    Sides {
        ups: 0,
        lows: 0,
        steep_ups: 0,
        steep_lows: 0,
    }
}

/// One entry more, of the variable at a place, if it is one that is counted.
pub fn count(counts: &mut Vec<Sides>, place: usize, t: &Entry, counted: bool) {
    if !counted {
        return;
    }
    if let Some(both) = counts.get_mut(place) {
        let steep = u64::from(t.by != 1 && t.by != -1);
        if t.by > 0 {
            both.ups = both.ups.saturating_add(1);
            both.steep_ups = both.steep_ups.saturating_add(steep);
        } else {
            both.lows = both.lows.saturating_add(1);
            both.steep_lows = both.steep_lows.saturating_add(steep);
        }
    }
}

/// One entry less.
fn discount(counts: &mut Vec<Sides>, place: usize, t: &Entry) {
    if let Some(both) = counts.get_mut(place) {
        let steep = u64::from(t.by != 1 && t.by != -1);
        if t.by > 0 {
            both.ups = both.ups.saturating_sub(1);
            both.steep_ups = both.steep_ups.saturating_sub(steep);
        } else {
            both.lows = both.lows.saturating_sub(1);
            both.steep_lows = both.steep_lows.saturating_sub(steep);
        }
    }
}

/// Counts kept rows no more.
pub fn discount_rows(
    counts: &mut Vec<Sides>,
    places: &BTreeMap<u32, usize>,
    rows: &[Row],
    numbers: &[usize],
) {
    for n in numbers {
        if let Some(row) = rows.get(*n) {
            for t in &row.entries {
                if let Some(p) = places.get(&t.variable) {
                    discount(counts, *p, t);
                }
            }
        }
    }
}

/// The number of pairs that the elimination of a variable makes. Where on one side each coefficient
/// is 1 or -1 it is exact: whole numbers that meet what is left have one for the variable between
/// them (Pugh, The Omega test, 1991). Elsewhere each pair counts as many.
pub fn cost_of(both: &Sides) -> u64 {
    let pairs = both.ups.saturating_mul(both.lows);
    if pairs > 0 && both.steep_ups > 0 && both.steep_lows > 0 {
        pairs.saturating_add(1).saturating_mul(INEXACT)
    } else {
        pairs
    }
}
