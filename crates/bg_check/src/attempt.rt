//! A run that may fail.
ghost use Rattle.std.specs.Prelude.{◌≡◌, true, IfOk};
ghost use Rattle.bg_ast.specs.Meaning.{meaning_of};
ghost use Rattle.bg_ast.specs.Views.{program_of};
ghost use Rattle.bg_sense.specs.Typed.{IsTyped};
ghost use Rattle.bg_sense.specs.Tables.{are_tables};
ghost use Rattle.bg_sense.specs.Claims.{IsState};
ghost use Rattle.bg_fits.specs.Valued.{is_over_values};
ghost use Rattle.bg_places.specs.Views.{placed_of, spot_of};
ghost use Rattle.bg_cert.specs.Walks.{has};
ghost use Rattle.bg_scalar.specs.Choices.{state_of};
ghost use Rattle.bg_scalar.specs.Views.{tables_in, vals_in};
ghost use Rattle.bg_task.specs.Prepared.{IsPrepared};
ghost use Rattle.bg_check.specs.Dropped.{FailsWithin};
ghost use Rattle.bg_check.specs.Verdicts.{HasTypes};
ghost use Rattle.bg_check.specs.Fitting.{MayRefute};

use crate::dropping::used_up;
use crate::failing::{Met, first, first_kinds};
use crate::fitting::{fit, tables_fit};
use crate::front::many_said;
use bg_faithful::laws::{tables_meet_programs_over_values, typed_values_begin_with_a_state};
use bg_model::{Counterexample, Routine, Valuation, counterexample};
use bg_passive::laws::arrivals_fit;
use bg_places::Spot;
use bg_replay::laws::replays_are_induction_runs;
use bg_replay::{Code, Ending, Start, replay};
use bg_scalar::Table;
use bg_sense::laws::typed_programs_have_typed_bodies;
use bg_task::{Cut, Question, forms_left};
use bg_term_table::Line;
use bg_termed::laws::programs_over_values_are_tabled;
use std::alloc::{AllocError, Global};

/// Whether two checks are the same.
fn same_spot(a: Spot, b: Spot) -> bool
    ensures { result ≡ true → spot_of a ≡ spot_of b }
{
    match (a, b) {
        (Spot::Assert(j), Spot::Assert(k)) => j == k,
        (Spot::Entry(j), Spot::Entry(k)) => j == k,
        (Spot::Turn(j), Spot::Turn(k)) => j == k,
        (Spot::Call(s, j), Spot::Call(t, k)) => s == t && j == k,
        (Spot::Return(s, j), Spot::Return(t, k)) => s == t && j == k,
        _ => false,
    }
}

/// Whether the run fails at the place.
fn fails_there(
    alloc: Global,
    question: Question<'_, '_>,
    cex: &Counterexample,
) -> Result<bool, AllocError>
    requires typed { IsTyped (meaning_of (program_of question.program.now)) }
    requires scalars { is_over_values (meaning_of (program_of question.program.now)) ≡ true }
    requires prepared { IsPrepared (program_of question.program.now) question.place.now.implementation question.prepared.now }
    ensures { IfOk result (λ b. b ≡ true → are_tables (meaning_of (program_of question.entry.program.now)).functions (tables_in cex.now.tables.items) ≡ true → IsState (meaning_of (program_of question.entry.program.now)) question.entry.place.now.implementation (state_of (vals_in cex.now.globals.items) (vals_in cex.now.frame.items)) → HasTypes cex.now → FailsWithin (meaning_of (program_of question.entry.program.now)) (has question.entry.set.now) (placed_of question.entry.place.now).place cex.now) }
{
    tables_meet_programs_over_values();
    replays_are_induction_runs();
    programs_over_values_are_tabled();
    let code = Code {
        program: question.program,
        blocks: &question.prepared.blocks,
        set: question.set,
    };
    let start = Start {
        tables: &cex.tables,
        globals: &cex.globals,
        frame: &cex.frame,
        choices: &cex.choices,
    };
    let ending = replay(alloc, code, question.place.implementation, start)?;
    match ending {
        Ending::Failed(spot) => Ok(same_spot(spot, question.place.spot)),
        _ => Ok(false),
    }
}

/// The run, where it fails at the place, with no choice left over.
fn tried(
    alloc: Global,
    question: Question<'_, '_>,
    cex: Counterexample,
) -> Result<Option<Counterexample>, AllocError>
    requires typed { IsTyped (meaning_of (program_of question.program.now)) }
    requires scalars { is_over_values (meaning_of (program_of question.program.now)) ≡ true }
    requires prepared { IsPrepared (program_of question.program.now) question.place.now.implementation question.prepared.now }
    requires state { IsState (meaning_of (program_of question.program.now)) question.place.now.implementation (state_of (vals_in cex.globals.items) (vals_in cex.frame.items)) }
    requires types { HasTypes cex }
    ensures { IfOk result (λ found. MayRefute (meaning_of (program_of question.entry.program.now)) (has question.entry.set.now) (placed_of question.entry.place.now).place found) }
{
    programs_over_values_are_tabled();
    let fails = fails_there(alloc, question, &cex)?;
    if !fails {
        return Ok(None);
    }
    let types = &question.program.types;
    let functions = &question.program.functions;
    let fits = tables_fit(alloc, types, functions, &cex.tables)?;
    if !fits {
        return Ok(None);
    }
    let left = used_up(alloc, question, cex)?;
    Ok(Some(left))
}

/// The counterexample of a complete leaf that isn't finished, where the run fails: of such a leaf only the replay tells whether it does.
/// The values are guessed: of them and of the tables nothing is known, so their types are tested.
pub fn attempt(
    alloc: Global,
    question: Question<'_, '_>,
    cut: &Cut<'_>,
    lines: &[Line],
    met: Met<'_>,
    tables: Vec<Table>,
) -> Result<Option<Counterexample>, AllocError>
    requires typed { IsTyped (meaning_of (program_of question.program.now)) }
    requires scalars { is_over_values (meaning_of (program_of question.program.now)) ≡ true }
    requires prepared { IsPrepared (program_of question.program.now) question.place.now.implementation question.prepared.now }
    ensures { IfOk result (λ found. MayRefute (meaning_of (program_of question.entry.program.now)) (has question.entry.set.now) (placed_of question.entry.place.now).place found) }
{
    typed_programs_have_typed_bodies();
    arrivals_fit();
    typed_values_begin_with_a_state();
    let prepared = question.prepared;
    let kinds = first_kinds(&prepared.kinds, prepared.count as usize);
    let values = first(met.values, prepared.count as usize);
    if !fit(values, kinds) {
        return Ok(None);
    }
    let forms = forms_left(alloc, cut)?;
    let front = many_said(lines)?;
    let routine = Routine {
        program: question.program,
        frame: prepared.frame,
        blocks: &prepared.blocks,
        firsts: &prepared.firsts,
        forms: &forms,
        front,
    };
    let valuation = Valuation {
        truths: met.truths,
        kinds,
        values,
    };
    let spot = question.place.spot;
    match counterexample(alloc, routine, spot, question.set, valuation, tables)? {
        None => Ok(None),
        Some(cex) => tried(alloc, question, cex),
    }
}
