//! Whether places have sections that their clauses accept.
ghost use Rattle.std.specs.Prelude.{◌≡◌, ◌<◌, ℕ, true, length, map, slice_get, IfOk};
ghost use Rattle.std.specs.List.{list_all};
ghost use Rattle.bg_text.specs.Views.{id_of};
ghost use Rattle.bg_ast.specs.Meaning.{meaning_of};
ghost use Rattle.bg_ast.specs.Views.{program_of};
ghost use Rattle.bg_sense.specs.Typed.{IsTyped};
ghost use Rattle.bg_fits.specs.Valued.{is_over_values};
ghost use Rattle.bg_cert.specs.Walks.{has};
ghost use Rattle.bg_places.specs.Views.{placed_of, placed_in};
ghost use Rattle.bg_term_table.specs.Lines.{lines_of};
ghost use Rattle.bg_task.specs.Prepared.{IsPrepared};
ghost use Rattle.bg_task.specs.Lines.{AreThere};
ghost use Rattle.bg_certtext.specs.Views.{section_of};
ghost use Rattle.bg_certtext.specs.Spellable.{is_row};
ghost use Rattle.bg_accept.specs.Accepted.{places_at};
ghost use Rattle.bg_accept.specs.Sections.{section_at};
ghost use Rattle.bg_accept.specs.Tables.{number_at, section_of_number};
ghost use Rattle.bg_accept.specs.Reading.{IsReading, IsSettledBehind, IsSettled, IsSettledBy, IsFine, IsOutcomeOf};

use crate::kept::is_needed;
use crate::lines::lines_in;
use crate::numbers::Numbers;
use crate::reading::Reading;
use crate::section::accepts_section;
use bg_certtext::Section;
use bg_places::Place;
use bg_task::{Made, Prepared, Question, cut_down, place_clauses};
use bg_term_table::Line;
use std::alloc::{AllocError, Global};

/// Whether a place's clauses behind these lines accept a section.
fn shows_behind(
    alloc: Global,
    question: Question<'_, '_>,
    numbers: &Numbers,
    section: &Section,
    lines: &[Line],
) -> Result<bool, AllocError>
    requires typed { IsTyped (meaning_of (program_of question.program.now)) }
    requires scalars { is_over_values (meaning_of (program_of question.program.now)) ≡ true }
    requires prepared { IsPrepared (program_of question.program.now) question.place.now.implementation question.prepared.now }
    requires rows { list_all is_row (section_of section.now).table ≡ true }
    requires there { AreThere (program_of question.program.now) question.place.now.implementation question.prepared.now (lines_of lines.now) }
    ensures { IfOk result (IsSettledBehind (meaning_of (program_of question.entry.program.now)) (has question.entry.set.now) (map id_of numbers.now.candidates.now) (section_of section.now) (placed_of question.entry.place.now).place (lines_of lines.now)) }
{
    let cut = cut_down(
        alloc,
        question.program,
        question.prepared,
        question.place,
        lines,
    )?;
    match place_clauses(alloc, question, &cut)? {
        Made::Outside(_) => Ok(false),
        Made::Clauses(f) => accepts_section(alloc, &f, question.set, numbers, section),
    }
}

/// Whether a place's clauses, behind the lines that a section has, accept the section.
fn shows(
    alloc: Global,
    question: Question<'_, '_>,
    numbers: &Numbers,
    section: &Section,
) -> Result<bool, AllocError>
    requires typed { IsTyped (meaning_of (program_of question.program.now)) }
    requires scalars { is_over_values (meaning_of (program_of question.program.now)) ≡ true }
    requires prepared { IsPrepared (program_of question.program.now) question.place.now.implementation question.prepared.now }
    requires rows { list_all is_row (section_of section.now).table ≡ true }
    ensures { IfOk result (IsSettled (meaning_of (program_of question.entry.program.now)) (has question.entry.set.now) (map id_of numbers.now.candidates.now) (section_of section.now) (placed_of question.entry.place.now).place) }
{
    match lines_in(alloc, question.program, question.prepared, &section.stated)? {
        None => Ok(false),
        Some(lines) => shows_behind(alloc, question, numbers, section, &lines),
    }
}

/// Whether a place's clauses accept the section with this number, if there is one.
fn check_place(
    alloc: Global,
    reading: Reading<'_, '_, '_>,
    prepared: &Prepared<'_>,
    place: &Place,
    first: Option<usize>,
) -> Result<bool, AllocError>
    requires reading { IsReading reading }
    requires prepared { IsPrepared (program_of reading.program.now) place.now.implementation prepared.now }
    ensures { IfOk result (IsSettledBy (meaning_of (program_of reading.entry.program.now)) (has reading.entry.set.now) (program_of reading.entry.program.now).candidates (section_of_number (map section_of reading.entry.sections.now) first) (placed_of place.now).place) }
{
    let Some(number) = first else {
        return Ok(false);
    };
    let Some(section) = reading.sections.get(number) else {
        return Ok(false);
    };
    let question = Question {
        program: reading.program,
        prepared,
        place,
        set: reading.set,
    };
    shows(alloc, question, &reading.tables.numbers, section)
}

/// Whether a place doesn't need a section, or its clauses accept the one with this number.
fn is_fine(
    alloc: Global,
    reading: Reading<'_, '_, '_>,
    prepared: &Prepared<'_>,
    place: &Place,
    first: Option<usize>,
) -> Result<bool, AllocError>
    requires reading { IsReading reading }
    requires prepared { IsPrepared (program_of reading.program.now) place.now.implementation prepared.now }
    ensures { IfOk result (IsFine (meaning_of (program_of reading.entry.program.now)) (has reading.entry.set.now) (program_of reading.entry.program.now).candidates (section_of_number (map section_of reading.entry.sections.now) first) (placed_of place.now).place) }
{
    if is_needed(reading.set, place) {
        check_place(alloc, reading, prepared, place, first)
    } else {
        Ok(true)
    }
}

/// The number of the first section of the place with this number.
fn first_in(row: &[Option<usize>], number: usize) -> Option<usize>
    ensures { result ≡ number_at (slice_get row.now number) }
{
    match row.get(number) {
        None => None,
        Some(first) => *first,
    }
}

/// The first of an implementation's places that needs a section and has none that its clauses accept.
pub fn bare_in(
    alloc: Global,
    reading: Reading<'_, '_, '_>,
    prepared: &Prepared<'_>,
    implementation: usize,
    places: &[Place],
    row: &[Option<usize>],
) -> Result<Option<Place>, AllocError>
    requires reading { IsReading reading }
    requires prepared { IsPrepared (program_of reading.program.now) implementation prepared.now }
    requires places { placed_in places.now ≡ places_at (program_of reading.program.now) implementation }
    requires row { (i : ℕ) → i < length places.now → section_of_number (map section_of reading.sections.now) (number_at (slice_get row.now i)) ≡ section_at implementation i (map section_of reading.sections.now) }
    ensures { IfOk result (IsOutcomeOf (program_of reading.entry.program.now) (has reading.entry.set.now) (map section_of reading.entry.sections.now) implementation) }
{
    for number in 0..places.len() {
        let place = &places[number];
        let first = first_in(row, number);
        if !is_fine(alloc, reading, prepared, place, first)? {
            return Ok(Some(*place));
        }
    }
    Ok(None)
}
