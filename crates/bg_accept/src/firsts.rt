//! The first section of each place.
ghost use Rattle.std.specs.Prelude.{◌≡◌, ◌&&◌, ◌==◌, nat_lt, cond, None, Some, ℕ, map, length, replicate, slice_get, IfOk};
ghost use Rattle.bg_certtext.specs.Views.{section_of};
ghost use Rattle.bg_accept.specs.Sections.{is_at};
ghost use Rattle.bg_accept.specs.Tables.{number_at, widths, counts, is_there, first_at, AreFirsts};

use bg_certtext::Section;
use bg_places::Place;
use std::alloc::{AllocError, Global};

/// So many places without a section.
fn no_section(alloc: Global, places: usize) -> Result<Vec<Option<usize>>, AllocError>
    ensures { IfOk result (λ made. made.items ≡ replicate places None) }
{
    vec![in alloc; None; places]
}

/// A table without sections.
fn no_sections(alloc: Global, all: &[Vec<Place>]) -> Result<Vec<Vec<Option<usize>>>, AllocError>
    ensures widths { IfOk result (λ made. widths made.items ≡ counts all.now) }
    ensures none { IfOk result (λ made. (k i : ℕ) → first_at made.items k i ≡ None) }
{
    let mut made = Vec::new(alloc);
    for places in all {
        made.push(no_section(alloc, places.len())?)?;
    }
    Ok(made)
}

/// Gives the place with this number a section, where it is there.
fn put_at(row: &mut [Option<usize>], place: u128, number: usize)
    ensures long { length row.new ≡ length row.old }
    ensures put { (i : ℕ) → number_at (slice_get row.new i) ≡ cond (place == i && nat_lt i (length row.old)) (Some number) (number_at (slice_get row.old i)) }
{
    if place < row.len() as u128 {
        row[place as usize] = Some(number);
    }
}

/// Gives the place of a section its number, where the place is there.
fn put(table: &mut Vec<Vec<Option<usize>>>, section: &Section, number: usize)
    ensures widths { widths table.new.items ≡ widths table.old.items }
    ensures put { (k i : ℕ) → first_at table.new.items k i ≡ cond (is_at k i (section_of section.now) && is_there (widths table.old.items) k i) (Some number) (first_at table.old.items k i) }
{
    if section.implementation < table.len() as u128 {
        put_at(
            &mut table[section.implementation as usize],
            section.place,
            number,
        );
    }
}

/// The first section of each place that is there; a section of a place that isn't is passed over.
pub fn firsts_of(
    alloc: Global,
    all: &[Vec<Place>],
    sections: &[Section],
) -> Result<Vec<Vec<Option<usize>>>, AllocError>
    ensures { IfOk result (λ made. AreFirsts all.now (map section_of sections.now) made.items) }
{
    let mut table = no_sections(alloc, all)?;
    let mut number = sections.len();
    while number > 0 {
        number -= 1;
        put(&mut table, &sections[number], number);
    }
    Ok(table)
}
