//! The implementations, one after the other.
ghost use Rattle.std.specs.Prelude.{◌<◌, length, map, IfOk};
ghost use Rattle.bg_ast.specs.Views.{program_of};
ghost use Rattle.bg_cert.specs.Walks.{has};
ghost use Rattle.bg_certtext.specs.Views.{section_of};
ghost use Rattle.bg_accept.specs.Reading.{IsReading, IsOutcomeOf, IsOutcome};

use crate::kept::any_needed;
use crate::places::bare_in;
use crate::reading::Reading;
use bg_places::Place;
use bg_task::prepare;
use std::alloc::{AllocError, Global};

/// The first place of the implementation with this number that needs a section and has none that its clauses accept. The
/// implementation is prepared where one of its places needs a section.
fn bare_of(
    alloc: Global,
    reading: Reading<'_, '_, '_>,
    implementation: usize,
) -> Result<Option<Place>, AllocError>
    requires reading { IsReading reading }
    requires there { implementation < length reading.program.now.implementations.items }
    ensures { IfOk result (IsOutcomeOf (program_of reading.entry.program.now) (has reading.entry.set.now) (map section_of reading.entry.sections.now) implementation) }
{
    let places = &reading.tables.all[implementation];
    let row = &reading.tables.firsts[implementation];
    if !any_needed(reading.set, places) {
        return Ok(None);
    }
    let prepared = prepare(
        alloc,
        reading.program,
        &reading.tables.callees,
        implementation,
    )?;
    bare_in(alloc, reading, &prepared, implementation, places, row)
}

/// The first place of a program that needs a section and has none that its clauses accept.
pub fn first_bare(alloc: Global, reading: Reading<'_, '_, '_>) -> Result<Option<Place>, AllocError>
    requires reading { IsReading reading }
    ensures { IfOk result (IsOutcome (program_of reading.entry.program.now) (has reading.entry.set.now) (map section_of reading.entry.sections.now)) }
{
    for implementation in 0..reading.program.implementations.len() {
        if let Some(place) = bare_of(alloc, reading, implementation)? {
            return Ok(Some(place));
        }
    }
    Ok(None)
}
