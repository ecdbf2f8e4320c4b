//! All that follows from the trail: by clauses, by columns and by lines, until nothing more does.

use crate::bounds::set_bounds;
use crate::engine::Engine;
use crate::lines::{clash, spread_all};
use crate::reason::Reason;
use crate::unit::units;
use std::alloc::AllocError;

/// Makes true what follows. Answers why all of it can't be. What lines tell comes before values are looked for: where that makes more
/// true, and then something false, no pivot is needed.
pub fn propagate(e: &mut Engine<'_>) -> Result<Option<Reason>, AllocError> {
    for _ in 0..e.trail.order.len().saturating_add(1) {
        if let Some(c) = units(e) {
            return Ok(Some(Reason::Clause(c)));
        }
        let before = e.trail.len;
        let found = set_bounds(e)?;
        if found.is_some() {
            return Ok(found);
        }
        if e.trail.len == before {
            spread_all(e)?;
        }
        if e.trail.len == before {
            let found = clash(e)?;
            if found.is_some() {
                return Ok(found);
            }
            spread_all(e)?;
            if e.trail.len == before {
                return Ok(None);
            }
        }
    }
    Ok(None)
}
