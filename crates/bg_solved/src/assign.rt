//! Values of terms that were eliminated.
use crate::equality::{Equality, Solved};

/// The value that an equality gives its term; none past 128 bits.
fn value_by(e: &Equality, values: &[i128]) -> Option<i128> {
    let mut left = e.row.bound;
    for t in &e.row.entries {
        if t.variable != e.term {
            let v = values.get(t.variable as usize).copied()?;
            left = left.checked_sub(t.by.checked_mul(v)?)?;
        }
    }
    Some(left)
}

/// Gives each term that was eliminated the value that its equality says, from those of the terms that stay. False where one leaves 128
/// bits.
pub fn complete(s: &Solved, values: &mut [i128]) -> bool {
    for at in (0..s.equalities.len()).rev() {
        if let Some(e) = s.equalities.get(at) {
            let Some(v) = value_by(e, values) else {
                return false;
            };
            if let Some(place) = values.get_mut(e.term as usize) {
                *place = v;
            }
        }
    }
    true
}
