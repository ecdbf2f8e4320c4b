//! The value nearest to a target in a span.
ghost use Rattle.bg_point.specs.Spans.{IsChoice};

use crate::span::{Choice, Mark, Span};

/// The whole number nearest to a target between the two limits; or the gap where there is none.
pub fn choose(target: i128, span: Span) -> Choice
    ensures { IsChoice target span result }
{
    if let Some(low) = span.low {
        if let Some(up) = span.up {
            if up.value < low.value {
                return Choice::Empty {
                    below: up.value,
                    low: low.row,
                    up: up.row,
                };
            }
        }
        if low.value > target {
            return Choice::Value(low);
        }
    }
    if let Some(up) = span.up {
        if up.value < target {
            return Choice::Value(up);
        }
    }
    Choice::Value(Mark {
        value: target,
        row: 0,
    })
}
