//! The counterexample of a complete leaf.
ghost use Rattle.std.specs.Prelude.{◌≡◌, take, map, true, IfOk};
ghost use Rattle.bg_ast.specs.Meaning.{meaning_of, named_of, impl_of, proc_of};
ghost use Rattle.bg_ast.specs.Views.{program_of};
ghost use Rattle.bg_sense.specs.Typed.{IsTyped};
ghost use Rattle.bg_places.specs.Views.{placed_of, spot_of};
ghost use Rattle.bg_formula.specs.Formulas.{formula_of};
ghost use Rattle.bg_cert.specs.Walks.{has};
ghost use Rattle.bg_point.specs.Points.{target_of};
ghost use Rattle.bg_tree.specs.Ends.{IsLeaf};
ghost use Rattle.bg_fits.specs.Valued.{is_over_values};
ghost use Rattle.bg_scalar.specs.Values.{value_of};
ghost use Rattle.bg_scalar.specs.Views.{tables_in};
ghost use Rattle.bg_term_table.specs.Lines.{lines_of};
ghost use Rattle.bg_task.specs.Asked.{IsAsked};
ghost use Rattle.bg_task.specs.Prepared.{IsPrepared};
ghost use Rattle.bg_task.specs.Slices.{IsSliceFor};
ghost use Rattle.bg_task.specs.Lines.{AreThere};
ghost use Rattle.bg_task.specs.Made.{ClausesOf};
ghost use Rattle.bg_check.specs.LeafRuns.{leaf_bools, IsBuilt, HasLeaf};
ghost use Rattle.bg_check.specs.Verdicts.{IsFailure, HasTypes};

use crate::front::many_said;
use bg_clause::laws::{atoms_of_clauses, clauses_fail_alike};
use bg_faithful::laws::{
    checks_of_passive_blocks_are_places, clauses_of_encodings_are_whole,
    tables_meet_programs_over_values, typed_values_begin_with_a_state,
};
use bg_formula::Clauses;
use bg_kinds::ValueType;
use bg_linear::laws::scalar_values_hold;
use bg_model::{Counterexample, Routine, Valuation, counterexample};
use bg_passive::laws::arrivals_fit;
use bg_scalar::{Table, Value};
use bg_sense::laws::typed_programs_have_typed_bodies;
use bg_sense::resolved::places_have_spots_of_their_own;
use bg_task::{Cut, Question, forms_left};
use bg_term_table::Line;
use bg_termed::laws::{
    blocks_behind_lines_stay_flat, built_values_are_models, built_values_are_typed,
    passive_blocks_have_terms, programs_over_values_are_tabled,
};
use bg_terms::laws::{flat_expressions_say_the_same, scalars_say_the_same};
use bg_tree::Leaf;
use bg_tree::laws::leaves_are_met;
use std::alloc::{AllocError, Global};

/// A complete leaf of clauses, with the truth values of the atoms and the values that are built for incarnations and terms there.
#[derive(Clone, Copy)]
pub struct Met<'a> {
    pub clauses: &'a Clauses,
    pub leaf: &'a Leaf,
    pub truths: &'a [bool],
    pub values: &'a [Value],
}

/// The first of these values, so many; all where there are no more.
pub fn first(values: &[Value], many: usize) -> &[Value]
    ensures { result.now ≡ take many values.now }
{
    let width = many.min(values.len());
    &values[..width]
}

/// The first of these types, so many; all where there are no more.
pub fn first_kinds(kinds: &[ValueType], many: usize) -> &[ValueType]
    ensures { result.now ≡ take many kinds.now }
{
    let width = many.min(kinds.len());
    &kinds[..width]
}

/// The counterexample of a complete leaf of a place's clauses behind lines that is finished, where these values are built for it, and these
/// tables are read off them.
pub fn failing(
    alloc: Global,
    question: Question<'_, '_>,
    cut: &Cut<'_>,
    lines: &[Line],
    met: Met<'_>,
    tables: Vec<Table>,
) -> Result<Counterexample, AllocError>
    requires typed { IsTyped (meaning_of (program_of question.program.now)) }
    requires scalars { is_over_values (meaning_of (program_of question.program.now)) ≡ true }
    requires prepared { IsPrepared (program_of question.program.now) question.place.now.implementation question.prepared.now }
    requires asked { IsAsked (meaning_of (program_of question.program.now)) (has question.set.now) (placed_of question.place.now).place }
    requires slice { IsSliceFor (program_of question.program.now) question.place.now.implementation question.prepared.now (lines_of lines.now) (spot_of question.place.now.spot) cut.now }
    requires there { AreThere (program_of question.program.now) question.place.now.implementation question.prepared.now (lines_of lines.now) }
    requires clauses { ClausesOf cut.now (placed_of question.place.now).place (formula_of met.clauses.now) }
    requires leaf { IsLeaf (target_of question.prepared.now.targets.items) (formula_of met.clauses.now) (has question.set.now) met.leaf.now }
    requires truths { met.truths.now ≡ leaf_bools (formula_of met.clauses.now) met.leaf.now }
    requires built { (h : IsPrepared (program_of question.program.now) question.place.now.implementation question.prepared.now) → IsBuilt (meaning_of (program_of question.program.now)) question.place.now.implementation (impl_of (named_of (program_of question.program.now).types) h.implementation) (proc_of (named_of (program_of question.program.now).types) h.procedure) (lines_of lines.now) (formula_of met.clauses.now) met.leaf.now (map value_of met.values.now) (tables_in tables.items) }
    ensures { IfOk result (λ cex. HasLeaf (meaning_of (program_of question.entry.program.now)) (has question.entry.set.now) (placed_of question.entry.place.now).place (lines_of lines.now) cex × (IsFailure (meaning_of (program_of question.entry.program.now)) (has question.entry.set.now) (placed_of question.entry.place.now).place cex × HasTypes cex)) }
{
    typed_programs_have_typed_bodies();
    arrivals_fit();
    leaves_are_met();
    clauses_fail_alike();
    atoms_of_clauses();
    clauses_of_encodings_are_whole();
    checks_of_passive_blocks_are_places();
    places_have_spots_of_their_own();
    built_values_are_typed();
    typed_values_begin_with_a_state();
    tables_meet_programs_over_values();
    scalar_values_hold();
    programs_over_values_are_tabled();
    passive_blocks_have_terms();
    blocks_behind_lines_stay_flat();
    flat_expressions_say_the_same();
    scalars_say_the_same();
    built_values_are_models();
    let prepared = question.prepared;
    let forms = forms_left(alloc, cut)?;
    let front = many_said(lines)?;
    let routine = Routine {
        program: question.program,
        frame: prepared.frame,
        blocks: &prepared.blocks,
        firsts: &prepared.firsts,
        forms: &forms,
        front,
    };
    let valuation = Valuation {
        truths: met.truths,
        kinds: first_kinds(&prepared.kinds, prepared.count as usize),
        values: first(met.values, prepared.count as usize),
    };
    let spot = question.place.spot;
    match counterexample(alloc, routine, spot, question.set, valuation, tables)? {
        Some(cex) => Ok(cex),
        None => unreachable!(),
    }
}
