//! The history: why each candidate went.
ghost use Rattle.std.specs.Prelude.{◌≡◌, ◌++◌, ◌∷◌, [], List, Some, OnOk, IfOk, length, map, flat_map, filter, slice_get};
ghost use Rattle.std.specs.List.Sorted.{IsPermutation, IsNonDecreasingBy};
ghost use Rattle.bg_text.specs.Views.{id_of};
ghost use Rattle.bg_ast.specs.Resolved.{Program};
ghost use Rattle.bg_ast.specs.Views.{impl_of, program_of};
ghost use Rattle.bg_check.specs.Kept.{why_of, told_kept};
ghost use Rattle.bg_check.specs.Outcomes.{verdict_of};
ghost use Rattle.bg_places.specs.Placed.{Placed};
ghost use Rattle.bg_places.specs.Views.{placed_of, placed_in};
ghost use Rattle.bg_told.specs.Lines.{texts};
ghost use Rattle.bg_told.specs.Sheets.{head_of};
ghost use Rattle.bg_told.specs.Entries.{outer_in, names_for, split_verdict, gone_by, told_gone, sheet_in, IsOf};
ghost use Rattle.bg_sound.specs.Told.{Unknown};
ghost use Rattle.bg_told.specs.History.{has_candidate, guarded, found_of, gone_of, name_text, member_text, found_text, shown_text, front_text, gone_line, snapshot_line, gone_in, gone_at, gone_text, interpretation_text, IsHistory};

use crate::declared::{Declarations, declared_in};
use crate::functions::put_functions;
use crate::kept::{put_cause_word, put_kept_line};
use crate::places::put_counterexample;
use crate::values::put_constants;
use bg_ast::resolved::{Implementation, Resolved};
use bg_base::CandId;
use bg_check::{Kept, Verdict, kept_of};
use bg_houdini::Reason;
use bg_inference::Outcome;
use bg_lines::{put_number, put_place, put_position};
use bg_places::{Place, places};
use bg_rounds::Removal;
use bg_text::Name;
use bg_words::CandSet;
use std::alloc::{AllocError, Global};

/// Adds a place where it has a candidate.
fn add(made: &mut Vec<Place>, place: &Place) -> Result<(), AllocError>
    ensures { OnOk result (placed_in made.new.items ≡ placed_in made.old.items ++ filter has_candidate (placed_of place.now ∷ [])) }
{
    if place.candidate.is_none() {
        return Ok(());
    }
    made.push(*place)?;
    Ok(())
}

/// Those of these places that have a candidate.
fn guarded_of(alloc: Global, places: &[Place]) -> Result<Vec<Place>, AllocError>
    ensures { IfOk result (λ made. placed_in made.items ≡ filter has_candidate (placed_in places.now)) }
{
    let mut made = Vec::new(alloc);
    for place in places {
        add(&mut made, place)?;
    }
    Ok(made)
}

/// The places of a program that have a candidate, by implementation and place.
fn guarded(alloc: Global, program: &Resolved) -> Result<Vec<Place>, AllocError>
    ensures { IfOk result (λ made. placed_in made.items ≡ guarded (program_of program.now)) }
{
    let all = places(alloc, program)?;
    guarded_of(alloc, &all)
}

/// Each removal.
fn listed<'a>(
    alloc: Global,
    removals: &'a [Removal<Reason>],
) -> Result<Vec<&'a Removal<Reason>>, AllocError>
    ensures { IfOk result (λ made. map (λ d. d.now) made.items ≡ removals.now) }
{
    let mut made = Vec::new(alloc);
    for removal in removals {
        made.push(removal)?;
    }
    Ok(made)
}

/// The removals by number.
fn by_number<'a>(
    alloc: Global,
    removals: &'a [Removal<Reason>],
) -> Result<Vec<&'a Removal<Reason>>, AllocError>
    ensures same { IfOk result (λ made. IsPermutation removals.now (map (λ d. d.now) made.items)) }
    ensures rising { IfOk result (λ made. IsNonDecreasingBy (λ d. d.now.number) made.items) }
{
    let mut made = listed(alloc, removals)?;
    made.sort_by_key(|d| d.number)?;
    Ok(made)
}

/// The name of a candidate, where there is one of this number.
fn put_name(out: &mut Vec<u8>, names: &[Name], c: CandId) -> Result<(), AllocError>
    ensures { OnOk result (out.new.items ≡ out.old.items ++ name_text (slice_get (map id_of names.now) c.0)) }
{
    match names.get(c.0 as usize) {
        None => Ok(()),
        Some(name) => out.extend_from_slice(&name.text),
    }
}

fn put_unknown(out: &mut Vec<u8>, kept: Kept) -> Result<(), AllocError>
    ensures { OnOk result (out.new.items ≡ out.old.items ++ found_text (Unknown (told_kept kept))) }
{
    out.extend_from_slice(b"unknown ")?;
    put_cause_word(out, kept)
}

/// What was found, in words.
fn put_found(out: &mut Vec<u8>, told: &Reason) -> Result<(), AllocError>
    ensures { OnOk result (out.new.items ≡ out.old.items ++ found_text (found_of why_of told.now)) }
{
    match told {
        Reason::Refuted(_) => out.extend_from_slice(b"refuted"),
        Reason::Unknown(rounds, cause) => put_unknown(out, kept_of(rounds, cause)),
        Reason::Left(kept) => put_unknown(out, *kept),
    }
}

/// How a place fails, or what is kept of the cause.
fn put_shown(
    out: &mut Vec<u8>,
    declared: Declarations<'_>,
    implementation: &Implementation,
    told: &Reason,
) -> Result<(), AllocError>
    ensures { OnOk result (out.new.items ≡ out.old.items ++ shown_text (names_for declared.entry (head_of (impl_of implementation.now))) (split_verdict (length declared.entry.globals.now) (found_of why_of told.now))) }
{
    match told {
        Reason::Refuted(cex) => put_counterexample(out, declared, implementation, cex),
        Reason::Unknown(rounds, cause) => put_kept_line(out, kept_of(rounds, cause)),
        Reason::Left(kept) => put_kept_line(out, *kept),
    }
}

/// The number and the candidate of an entry, and where the implementation stands.
fn put_front(
    out: &mut Vec<u8>,
    names: &[Name],
    implementation: &Implementation,
    removal: &Removal<Reason>,
) -> Result<(), AllocError>
    ensures { OnOk result (out.new.items ≡ out.old.items ++ front_text (map id_of names.now) (head_of (impl_of implementation.now)) removal.now.number removal.now.cand.0) }
{
    out.extend_from_slice(b"drop ")?;
    put_number(out, removal.number as u128)?;
    out.push(b' ')?;
    put_name(out, names, removal.cand)?;
    out.extend_from_slice(b" in ")?;
    out.extend_from_slice(&implementation.name.text)?;
    out.push(b' ')?;
    put_position(out, implementation.pos)
}

/// The line of an entry at this place of this implementation.
fn put_gone_line(
    out: &mut Vec<u8>,
    names: &[Name],
    implementation: &Implementation,
    place: &Place,
    removal: &Removal<Reason>,
) -> Result<(), AllocError>
    ensures { OnOk result (out.new.items ≡ out.old.items ++ gone_line (map id_of names.now) (head_of (impl_of implementation.now)) (placed_of place.now) removal.now.number removal.now.cand.0 (found_of why_of removal.now.told)) }
{
    put_front(out, names, implementation, removal)?;
    out.extend_from_slice(b" at ")?;
    put_place(out, place)?;
    out.extend_from_slice(b": ")?;
    put_found(out, &removal.told)?;
    out.extend_from_slice(b"\n")
}

/// The name of a candidate that the set has.
fn put_member(out: &mut Vec<u8>, name: &Name, here: bool) -> Result<(), AllocError>
    ensures { OnOk result (out.new.items ≡ out.old.items ++ member_text (id_of name.now) here) }
{
    if !here {
        return Ok(());
    }
    out.push(b' ')?;
    out.extend_from_slice(&name.text)
}

/// The names of the candidates that the set has.
fn put_members(out: &mut Vec<u8>, names: &[Name], set: &CandSet) -> Result<(), AllocError>
    ensures { OnOk result (out.new.items ≡ out.old.items ++ texts member_text (map id_of names.now) set.now) }
{
    for (i, name) in names.iter().enumerate() {
        if i >= set.declared() as usize {
            return Ok(());
        }
        put_member(out, name, set.has(CandId(i as u32)))?;
    }
    Ok(())
}

/// The line of a snapshot.
fn put_snapshot(out: &mut Vec<u8>, names: &[Name], set: &CandSet) -> Result<(), AllocError>
    ensures { OnOk result (out.new.items ≡ out.old.items ++ snapshot_line (map id_of names.now) set.now) }
{
    out.extend_from_slice(b"  snapshot")?;
    put_members(out, names, set)?;
    out.extend_from_slice(b"\n")
}

/// An entry at a place of this implementation.
fn put_gone_of(
    out: &mut Vec<u8>,
    outcome: &Outcome,
    implementation: &Implementation,
    place: &Place,
    removal: &Removal<Reason>,
) -> Result<(), AllocError>
    ensures { OnOk result ((guarded : List Placed) → out.new.items ≡ out.old.items ++ gone_in (sheet_in outcome.now) (gone_by guarded (length (sheet_in outcome.now).outer.globals) removal.now) (placed_of place.now) (Some (head_of (impl_of implementation.now)))) }
{
    let names = outcome.opened.candidates.as_slice();
    put_gone_line(out, names, implementation, place, removal)?;
    put_snapshot(out, names, &removal.snapshot)?;
    put_shown(out, declared_in(outcome), implementation, &removal.told)
}

/// An entry at a place.
fn put_gone_at(
    out: &mut Vec<u8>,
    outcome: &Outcome,
    place: &Place,
    removal: &Removal<Reason>,
) -> Result<(), AllocError>
    ensures { OnOk result ((guarded : List Placed) → out.new.items ≡ out.old.items ++ gone_at (sheet_in outcome.now) (gone_by guarded (length (sheet_in outcome.now).outer.globals) removal.now) (Some (placed_of place.now))) }
{
    match outcome.opened.implementations.get(place.implementation) {
        None => Ok(()),
        Some(implementation) => put_gone_of(out, outcome, implementation, place, removal),
    }
}

/// An entry, where these are the places that have a candidate.
fn put_gone(
    out: &mut Vec<u8>,
    outcome: &Outcome,
    tasks: &[Place],
    removal: &Removal<Reason>,
) -> Result<(), AllocError>
    ensures { OnOk result (out.new.items ≡ out.old.items ++ gone_text (sheet_in outcome.now) (gone_by (placed_in tasks.now) (length (sheet_in outcome.now).outer.globals) removal.now)) }
{
    match tasks.get(removal.target.0 as usize) {
        None => Ok(()),
        Some(place) => put_gone_at(out, outcome, place, removal),
    }
}

/// The entries of these removals.
fn put_all_gone(
    out: &mut Vec<u8>,
    outcome: &Outcome,
    tasks: &[Place],
    removals: &[&Removal<Reason>],
) -> Result<(), AllocError>
    ensures { OnOk result (out.new.items ≡ out.old.items ++ flat_map (gone_text (sheet_in outcome.now)) (map (told_gone (placed_in tasks.now) (length (sheet_in outcome.now).outer.globals)) removals.now)) }
{
    for removal in removals {
        put_gone(out, outcome, tasks, removal)?;
    }
    Ok(())
}

/// The interpretation that meets the axioms, where one was found: the values of the constants, and the tables of the functions.
fn put_interpretation(
    out: &mut Vec<u8>,
    declared: Declarations<'_>,
    axioms: &Verdict,
) -> Result<(), AllocError>
    ensures { OnOk result (out.new.items ≡ out.old.items ++ interpretation_text (outer_in declared.entry) (split_verdict 0 (verdict_of why_of axioms.now))) }
{
    match axioms {
        Verdict::Refuted(cex) => {
            out.extend_from_slice(b"interpretation:\n")?;
            put_constants(out, declared.types, declared.constants, &cex.globals)?;
            put_functions(
                out,
                declared.types,
                declared.functions,
                declared.bodies,
                &cex.tables,
            )
        }
        _ => Ok(()),
    }
}

/// The history of what an inference comes to: for each removal by number the candidate, the place, and what was found there; the
/// candidates of its snapshot; and the values and choices with which the place fails, or what is kept of the cause; last the values of
/// constants and the tables of functions in an interpretation that meets the axioms, where one was found.
///
/// Only want of memory is an error.
pub fn history_text(alloc: Global, outcome: &Outcome) -> Result<Vec<u8>, AllocError>
    ensures { IfOk result (λ text. (p : Program) → IsOf p outcome.now → IsHistory why_of p outcome.now text.items) }
{
    let tasks = guarded(alloc, &outcome.opened)?;
    let sorted = by_number(alloc, &outcome.judged.inferred.removals)?;
    let mut out = Vec::new(alloc);
    out.extend_from_slice(b"history:\n")?;
    put_all_gone(&mut out, outcome, &tasks, &sorted)?;
    put_interpretation(&mut out, declared_in(outcome), &outcome.axioms)?;
    Ok(out)
}
