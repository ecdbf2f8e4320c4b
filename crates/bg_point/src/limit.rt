//! What a row allows a variable.
ghost use Rattle.std.specs.Prelude.{◌≡◌, ◌∷◌, [], pos, false};
ghost use Rattle.bg_rows.specs.Entries.{is_zero, coefficient};
ghost use Rattle.bg_rows.specs.Rows.{row_of};
ghost use Rattle.bg_point.specs.Points.{value_of, others, limit};

use crate::spot::Spot;
use bg_base::{OutOfRange, add, floor_div, mul, neg, sub};
use bg_rows::{Entry, Row, coefficient};

/// The value of a variable; 0 where it has no spot.
fn value_of(spots: &[Spot], x: u32) -> i128
    ensures { result ≡ value_of spots.now x }
{
    for s in spots {
        if x == s.variable {
            return s.value;
        }
    }
    0
}

/// An entry's product, added to a sum, unless it is the variable's own.
fn plus_other(spots: &[Spot], x: u32, sum: i128, t: &Entry) -> Result<i128, OutOfRange>
    ensures { result ≡ others (value_of spots.now) x sum (t.now ∷ []) }
{
    if x == t.variable {
        return Ok(sum);
    }
    let product = mul(t.by, value_of(spots, t.variable))?;
    let more = add(sum, product)?;
    Ok(more)
}

/// The products of the entries but that of the variable, added up in order.
#[tactic(auto, using(crate::proofs::Limits::others_more, crate::proofs::Limits::others_end))]
fn others(spots: &[Spot], x: u32, entries: &[Entry]) -> Result<i128, OutOfRange>
    ensures { result ≡ others (value_of spots.now) x (pos 0) entries.now }
{
    let mut sum = 0;
    for t in entries {
        sum = plus_other(spots, x, sum, t)?;
    }
    Ok(sum)
}

/// The nearest whole number to the bound that a row sets the variable: rounded down from above,
/// up from below. Refused at the first operation that leaves the range.
pub fn limit(spots: &[Spot], x: u32, row: &Row) -> Result<i128, OutOfRange>
    requires { is_zero (coefficient x (row_of row.now).entries) ≡ false }
    ensures { result ≡ limit (value_of spots.now) x (row_of row.now) }
{
    let sum = others(spots, x, &row.entries)?;
    let left = sub(row.bound, sum)?;
    let c = coefficient(&row.entries, x);
    let quotient = floor_div(left, c.unsigned_abs());
    if c > 0 { Ok(quotient) } else { neg(quotient) }
}
