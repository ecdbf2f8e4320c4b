//! One search for a place.
ghost use Rattle.std.specs.Prelude.{◌≡◌, true, IfOk};
ghost use Rattle.bg_ast.specs.Meaning.{meaning_of};
ghost use Rattle.bg_ast.specs.Views.{program_of};
ghost use Rattle.bg_sense.specs.Typed.{IsTyped};
ghost use Rattle.bg_places.specs.Views.{placed_of, spot_of};
ghost use Rattle.bg_formula.specs.Formulas.{formula_of};
ghost use Rattle.bg_cert.specs.Walks.{has};
ghost use Rattle.bg_point.specs.Points.{target_of};
ghost use Rattle.bg_tree.specs.declared.outcome.Budget.{Budget};
ghost use Rattle.bg_tree.specs.Ends.{IsLeaf};
ghost use Rattle.bg_fits.specs.Valued.{is_over_values};
ghost use Rattle.bg_term_table.specs.Lines.{lines_of};
ghost use Rattle.bg_task.specs.Lines.{AreThere};
ghost use Rattle.bg_task.specs.Asked.{IsAsked};
ghost use Rattle.bg_task.specs.Prepared.{IsPrepared};
ghost use Rattle.bg_task.specs.Slices.{IsSliceFor};
ghost use Rattle.bg_task.specs.Made.{ClausesOf};
ghost use Rattle.bg_check.specs.Found.{IsFound, has_cert};

use crate::attempt::attempt;
use crate::effort::Effort;
use crate::failing::{Met, failing};
use crate::found::Found;
use crate::leaf::{leaf_scalars, leaf_truths};
use crate::replayed::replayed;
use crate::spoken::{hints_of, spoken_of};
use crate::verdict::{Cause, Round};
use bg_faithful::laws::clauses_of_encodings_are_whole;
use bg_finish::{Finish, finish};
use bg_formula::Clauses;
use bg_search::{Aim, Searched, search};
use bg_task::{Cut, Made, Question, cut_down, place_clauses, with_lines};
use bg_term_table::{Around, Line};
use bg_termed::laws::{
    blocks_behind_lines_stay_flat, built_values_are_typed, passive_blocks_have_terms,
    programs_over_values_are_tabled, types_over_values_are_indexed,
};
use bg_tree::Leaf;
use std::alloc::{AllocError, Global};

/// What a complete leaf of a place's clauses behind lines comes to.
fn leaf_found(
    alloc: Global,
    question: Question<'_, '_>,
    cut: &Cut<'_>,
    lines: &[Line],
    f: &Clauses,
    leaf: Leaf,
) -> Result<Found, AllocError>
    requires typed { IsTyped (meaning_of (program_of question.program.now)) }
    requires scalars { is_over_values (meaning_of (program_of question.program.now)) ≡ true }
    requires prepared { IsPrepared (program_of question.program.now) question.place.now.implementation question.prepared.now }
    requires asked { IsAsked (meaning_of (program_of question.program.now)) (has question.set.now) (placed_of question.place.now).place }
    requires slice { IsSliceFor (program_of question.program.now) question.place.now.implementation question.prepared.now (lines_of lines.now) (spot_of question.place.now.spot) cut.now }
    requires there { AreThere (program_of question.program.now) question.place.now.implementation question.prepared.now (lines_of lines.now) }
    requires clauses { ClausesOf cut.now (placed_of question.place.now).place (formula_of f.now) }
    requires leaf { IsLeaf (target_of question.prepared.now.targets.items) (formula_of f.now) (has question.set.now) leaf }
    ensures kept { IfOk result (λ found. has_cert found ≡ true) }
    ensures found { IfOk result (λ found. (left : Budget) → IsFound left (meaning_of (program_of question.entry.program.now)) (has question.entry.set.now) (placed_of question.entry.place.now).place (lines_of lines.now) found) }
{
    programs_over_values_are_tabled();
    passive_blocks_have_terms();
    types_over_values_are_indexed();
    blocks_behind_lines_stay_flat();
    built_values_are_typed();
    let truths = leaf_truths(alloc, f.atoms.len(), &leaf.path)?;
    let lined = with_lines(alloc, question.program, question.prepared, lines)?;
    let targets = &question.prepared.targets;
    let scalars = leaf_scalars(alloc, &lined.sorts, &truths, &leaf.spots, f, targets)?;
    let around = Around {
        incarnations: lined.incarnations,
        results: &lined.results,
    };
    let spoken = spoken_of(alloc, question, lines, f, &lined)?;
    match finish(
        alloc,
        around,
        &lined.terms,
        &scalars,
        hints_of(question, &spoken),
    )? {
        Finish::Tables(values, tables) => {
            let met = Met {
                clauses: f,
                leaf: &leaf,
                truths: &truths,
                values: &values,
            };
            let cex = failing(alloc, question, cut, lines, met, tables)?;
            replayed(alloc, question, cex)
        }
        Finish::Lines(more, values, tables) => {
            let met = Met {
                clauses: f,
                leaf: &leaf,
                truths: &truths,
                values: &values,
            };
            let found = attempt(alloc, question, cut, lines, met, tables)?;
            match found {
                None => Ok(Found::Wanted(Round { leaf, lines: more })),
                Some(cex) => Ok(Found::Refuted(cex)),
            }
        }
        Finish::Leaves(o) => Ok(Found::Unknown(Cause::Argument(leaf, o))),
        Finish::NoScalars => unreachable!(),
    }
}

/// What a search for a place finds that has these clauses behind lines, which name what is there, where so much of the budget is left. What
/// is proved has its certificate, where such are kept.
fn clauses_found(
    alloc: Global,
    question: Question<'_, '_>,
    left: Effort,
    lines: &[Line],
    cut: &Cut<'_>,
    f: &Clauses,
) -> Result<Found, AllocError>
    requires typed { IsTyped (meaning_of (program_of question.program.now)) }
    requires scalars { is_over_values (meaning_of (program_of question.program.now)) ≡ true }
    requires prepared { IsPrepared (program_of question.program.now) question.place.now.implementation question.prepared.now }
    requires asked { IsAsked (meaning_of (program_of question.program.now)) (has question.set.now) (placed_of question.place.now).place }
    requires there { AreThere (program_of question.program.now) question.place.now.implementation question.prepared.now (lines_of lines.now) }
    requires slice { IsSliceFor (program_of question.program.now) question.place.now.implementation question.prepared.now (lines_of lines.now) (spot_of question.place.now.spot) cut.now }
    requires clauses { ClausesOf cut.now (placed_of question.place.now).place (formula_of f.now) }
    ensures kept { IfOk result (λ found. left.keeps ≡ true → has_cert found ≡ true) }
    ensures found { IfOk result (λ found. IsFound left.budget (meaning_of (program_of question.entry.program.now)) (has question.entry.set.now) (placed_of question.entry.place.now).place (lines_of lines.now) found) }
{
    clauses_of_encodings_are_whole();
    let targets = &question.prepared.targets;
    let aim = Aim {
        targets,
        budget: left.budget,
        keeps: left.keeps,
    };
    match search(alloc, f, question.set, aim)? {
        Searched::Closed(cert) => Ok(Found::Proved(cert)),
        Searched::Unknown(why) => Ok(Found::Unknown(Cause::Search(why))),
        Searched::Leaf(leaf) => leaf_found(alloc, question, cut, lines, f, leaf),
    }
}

/// What a search for a place finds behind lines that name what is there, where so much of the budget is left. What is proved has its
/// certificate, where such are kept.
pub fn search_place(
    alloc: Global,
    question: Question<'_, '_>,
    left: Effort,
    lines: &[Line],
) -> Result<Found, AllocError>
    requires typed { IsTyped (meaning_of (program_of question.program.now)) }
    requires scalars { is_over_values (meaning_of (program_of question.program.now)) ≡ true }
    requires prepared { IsPrepared (program_of question.program.now) question.place.now.implementation question.prepared.now }
    requires asked { IsAsked (meaning_of (program_of question.program.now)) (has question.set.now) (placed_of question.place.now).place }
    requires there { AreThere (program_of question.program.now) question.place.now.implementation question.prepared.now (lines_of lines.now) }
    ensures kept { IfOk result (λ found. left.keeps ≡ true → has_cert found ≡ true) }
    ensures found { IfOk result (λ found. IsFound left.budget (meaning_of (program_of question.entry.program.now)) (has question.entry.set.now) (placed_of question.entry.place.now).place (lines_of lines.now) found) }
{
    let cut = cut_down(
        alloc,
        question.program,
        question.prepared,
        question.place,
        lines,
    )?;
    match place_clauses(alloc, question, &cut)? {
        Made::Outside(o) => Ok(Found::Unknown(Cause::Form(o))),
        Made::Clauses(f) => clauses_found(alloc, question, left, lines, &cut, &f),
    }
}
