//! What bounds clash where a basic column can't come to its bound.
use crate::bound::bound_at;
use crate::entering::Out;
use crate::fraction::whole;
use crate::line::Line;
use crate::multiple::{Multiple, common_denominator, push_multiple};
use crate::simplex::Simplex;
use std::alloc::AllocError;

/// Puts the multiples of the bounds at which the line's columns are behind the others, scaled. False where one is missing or leaves 128
/// bits.
fn push_line(
    s: &Simplex,
    line: &Line,
    above: bool,
    by: i128,
    clash: &mut Vec<Multiple>,
) -> Result<bool, AllocError> {
    for part in &line.parts {
        let Some(bound) = bound_at(&s.bounds, part.column, (part.by.num > 0) != above) else {
            return Ok(false);
        };
        if !push_multiple(clash, bound.by, part.by, by)? {
            return Ok(false);
        }
    }
    Ok(true)
}

/// Puts the multiples of the bounds by which a basic column can't come to its own behind those in `clash`; true where they are there.
/// Where a number leaves 128 bits nothing is put, and the tableau is broken.
pub fn refute(s: &mut Simplex, out: Out, clash: &mut Vec<Multiple>) -> Result<bool, AllocError> {
    let from = clash.len();
    if let Some(line) = s.tableau.lines.get(out.line as usize) {
        let by = common_denominator(&line.parts);
        if push_multiple(clash, out.bound.by, whole(1), by)?
            && push_line(s, line, out.above, by, clash)?
        {
            return Ok(true);
        }
    }
    clash.truncate(from);
    s.tableau.broken = true;
    Ok(false)
}
