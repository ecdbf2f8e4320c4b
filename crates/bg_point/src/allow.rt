//! What the kept rows allow a variable.
ghost use Rattle.std.specs.Prelude.{◌≡◌, ◌<◌, ℕ, true, false, length, map, MatchResult, Some, is_ok};
ghost use Rattle.bg_rows.specs.Rows.{RowOf, row_of};
ghost use Rattle.bg_rows.specs.Steps.{row_at};
ghost use Rattle.bg_elim.specs.Kept.{none_before};
ghost use Rattle.bg_point.specs.Shelves.{IsShelved, place_in};
ghost use Rattle.bg_point.specs.Points.{value_of, bounds_above, bounds_below, binds, refused_at, limit};
ghost use Rattle.bg_point.specs.Spans.{IsSpan, IsLesser, IsGreater, IsWidened, IsRefused};

use crate::limit::limit;
use crate::shelves::Shelves;
use crate::span::{Mark, Span};
use crate::spot::Spot;
use bg_base::OutOfRange;
use bg_rows::{Row, coefficient};

/// Whether the row, in which no variable stands before this one, bounds it from above.
fn is_above(order: &[u32], x: u32, row: &Row) -> bool
    requires { none_before order.now x (row_of row.now) ≡ true }
    ensures { result ≡ bounds_above order.now x (row_of row.now) }
{
    let c = coefficient(&row.entries, x);
    c > 0
}

/// Whether the row, in which no variable stands before this one, bounds it from below.
fn is_below(order: &[u32], x: u32, row: &Row) -> bool
    requires { none_before order.now x (row_of row.now) ≡ true }
    ensures { result ≡ bounds_below order.now x (row_of row.now) }
{
    let c = coefficient(&row.entries, x);
    c < 0
}

/// The lesser of two limits from above.
fn lesser(up: Option<Mark>, mark: Mark) -> Option<Mark>
    ensures { IsLesser up mark result }
{
    match up {
        Some(old) => {
            if old.value <= mark.value {
                Some(old)
            } else {
                Some(mark)
            }
        }
        None => Some(mark),
    }
}

/// The greater of two limits from below.
fn greater(low: Option<Mark>, mark: Mark) -> Option<Mark>
    ensures { IsGreater low mark result }
{
    match low {
        Some(old) => {
            if mark.value <= old.value {
                Some(old)
            } else {
                Some(mark)
            }
        }
        None => Some(mark),
    }
}

/// The span that one more row leaves, in which no variable stands before this one.
fn widen(
    order: &[u32],
    spots: &[Spot],
    x: u32,
    n: usize,
    row: &Row,
    span: Span,
) -> Result<Span, OutOfRange>
    requires { none_before order.now x (row_of row.now) ≡ true }
    ensures { MatchResult result (λ made. IsWidened order.now (value_of spots.now) x (row_of row.now) n span made) (λ e. refused_at (value_of spots.now) order.now x e (Some (row_of row.now))) }
{
    if is_above(order, x, row) {
        let value = limit(spots, x, row)?;
        let up = lesser(span.up, Mark { value, row: n });
        return Ok(Span { low: span.low, up });
    }
    if is_below(order, x, row) {
        let value = limit(spots, x, row)?;
        let low = greater(span.low, Mark { value, row: n });
        return Ok(Span { low, up: span.up });
    }
    Ok(span)
}

/// What the rows allow the variable at a place of the order; or the number of the first row of which
/// an operation leaves the range. Only the rows on the variable's shelf bound it.
pub fn span_of(
    order: &[u32],
    shelves: &Shelves,
    spots: &[Spot],
    p: usize,
    x: u32,
    rows: &[Row],
) -> Result<Span, (usize, OutOfRange)>
    requires shelved { IsShelved order.now (map row_of rows.now) shelves.now }
    requires here { place_in order.now x ≡ p }
    requires there { p < length order.now }
    ensures { MatchResult result (λ span. IsSpan order.now (map row_of rows.now) (value_of spots.now) x (length rows.now) span) (λ e. IsRefused order.now (map row_of rows.now) (value_of spots.now) x e.0 e.1) }
{
    let mut span = Span {
        low: None,
        up: None,
    };
    let mut n = shelves.heads[p];
    while n < rows.len() {
        match widen(order, spots, x, n, &rows[n], span) {
            Ok(made) => span = made,
            Err(e) => return Err((n, e)),
        }
        n = shelves.nexts[n];
    }
    Ok(span)
}
