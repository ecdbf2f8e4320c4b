//! A first try at a place, behind lines that are wanted at scalars that are made up.
ghost use Rattle.std.specs.Prelude.{◌≡◌, true, ◌++◌, IfOk, IfSome, OnOk};
ghost use Rattle.bg_ast.specs.Meaning.{meaning_of};
ghost use Rattle.bg_ast.specs.Views.{program_of};
ghost use Rattle.bg_sense.specs.Typed.{IsTyped};
ghost use Rattle.bg_places.specs.Views.{placed_of};
ghost use Rattle.bg_cert.specs.Walks.{has};
ghost use Rattle.bg_fits.specs.Valued.{is_over_values};
ghost use Rattle.bg_term_table.specs.Lines.{lines_of};
ghost use Rattle.bg_task.specs.Lines.{AreThere};
ghost use Rattle.bg_task.specs.Lined.{IsLined};
ghost use Rattle.bg_task.specs.Asked.{IsAsked};
ghost use Rattle.bg_task.specs.Prepared.{IsPrepared};
ghost use Rattle.bg_check.specs.Verdicts.{IsRight, has_all};

use crate::easy::easy_numbers;
use crate::effort::Effort;
use crate::found::Found;
use crate::heeded::heed;
use crate::leaf::scalars_of;
use crate::place::search_place;
use crate::proof::proof_of;
use crate::spoken::{claim_behind, hints_of, speaks_of_terms};
use crate::verdict::Verdict;
use bg_finish::{Finish, finish};
use bg_task::{Lined, Question, with_lines};
use bg_term_table::{Around, Line};
use bg_termed::laws::{
    blocks_behind_lines_stay_flat, built_values_are_typed, passive_blocks_have_terms,
    programs_over_values_are_tabled, types_over_values_are_indexed,
};
use std::alloc::{AllocError, Global};

/// How often lines are looked for, one behind the other, before anything is searched.
const MOST_STEPS: usize = 256;

/// How often a first try is searched.
const MOST_SEARCHES: usize = 6;

/// Lines, those behind so many of them that haven't been heeded, and the numbers that are fixed by those that have.
#[derive(Drop)]
pub struct Looked {
    pub lines: Vec<Line>,
    heeded: usize,
    fixed: Vec<Option<i128>>,
}

/// Adds these lines.
pub fn push_all(made: &mut Vec<Line>, more: &[Line]) -> Result<(), AllocError>
    ensures { OnOk result (made.new.items ≡ made.old.items ++ more.now) }
{
    for line in more {
        made.push(*line)?;
    }
    Ok(())
}

/// Whether the claim of a question's place speaks of terms.
pub fn claim_speaks(alloc: Global, question: Question<'_, '_>) -> Result<bool, AllocError> {
    if question.prepared.terms.is_empty() {
        return Ok(false);
    }
    let lined = with_lines(alloc, question.program, question.prepared, &[])?;
    let spoken = claim_behind(alloc, question, &[], &lined)?;
    Ok(speaks_of_terms(&spoken, lined.incarnations.len()))
}

/// The numbers at which to look next, by what the newest lines say too.
fn numbers_at(
    alloc: Global,
    question: Question<'_, '_>,
    lined: &Lined<'_>,
    newest: &[Line],
    fixed: &mut Vec<Option<i128>>,
) -> Result<Vec<i128>, AllocError> {
    let prepared = question.prepared;
    fixed.resize(lined.sorts.len(), None)?;
    let guess = easy_numbers(
        alloc,
        &lined.sorts,
        &prepared.targets,
        fixed,
        &prepared.flats,
    )?;
    if newest.is_empty() {
        return Ok(guess.numbers);
    }
    heed(
        &guess,
        fixed,
        lined.incarnations.len(),
        &lined.terms,
        newest,
    );
    let heeded = easy_numbers(
        alloc,
        &lined.sorts,
        &prepared.targets,
        fixed,
        &prepared.flats,
    )?;
    Ok(heeded.numbers)
}

/// The lines that are wanted of a place's implementation behind lines, at these numbers and where each truth value is false; none where
/// nothing is wanted there.
fn lines_at(
    alloc: Global,
    question: Question<'_, '_>,
    lined: &Lined<'_>,
    lines: &[Line],
    numbers: &[i128],
) -> Result<Vec<Line>, AllocError>
    requires typed { IsTyped (meaning_of (program_of question.program.now)) }
    requires scalars { is_over_values (meaning_of (program_of question.program.now)) ≡ true }
    requires prepared { IsPrepared (program_of question.program.now) question.place.now.implementation question.prepared.now }
    requires lined { IsLined (program_of question.program.now) question.prepared.now (lines_of lines.now) lined.now }
    requires there { AreThere (program_of question.program.now) question.place.now.implementation question.prepared.now (lines_of lines.now) }
    ensures { IfOk result (λ made. AreThere (program_of question.entry.program.now) question.entry.place.now.implementation question.entry.prepared.now (lines_of lines.now ++ lines_of made.items)) }
{
    programs_over_values_are_tabled();
    passive_blocks_have_terms();
    types_over_values_are_indexed();
    blocks_behind_lines_stay_flat();
    built_values_are_typed();
    let scalars = scalars_of(alloc, &lined.sorts, &[], numbers)?;
    let around = Around {
        incarnations: lined.incarnations,
        results: &lined.results,
    };
    let spoken = claim_behind(alloc, question, lines, lined)?;
    let hints = hints_of(question, &spoken);
    match finish(alloc, around, &lined.terms, &scalars, hints)? {
        Finish::Lines(more, _, _) => Ok(more),
        _ => Ok(Vec::new(alloc)),
    }
}

/// The lines that are wanted at the next numbers, and the numbers by those before.
fn looked_at(
    alloc: Global,
    question: Question<'_, '_>,
    looked: &mut Looked,
) -> Result<Vec<Line>, AllocError>
    requires typed { IsTyped (meaning_of (program_of question.program.now)) }
    requires scalars { is_over_values (meaning_of (program_of question.program.now)) ≡ true }
    requires prepared { IsPrepared (program_of question.program.now) question.place.now.implementation question.prepared.now }
    requires there { AreThere (program_of question.program.now) question.place.now.implementation question.prepared.now (lines_of looked.old.lines.items) }
    ensures lines { OnOk result (looked.new.lines ≡ looked.old.lines) }
    ensures there { IfOk result (λ made. AreThere (program_of question.entry.program.now) question.entry.place.now.implementation question.entry.prepared.now (lines_of looked.old.lines.items ++ lines_of made.items)) }
{
    let lined = with_lines(alloc, question.program, question.prepared, &looked.lines)?;
    let newest = looked.lines.get(looked.heeded..).unwrap_or(&[]);
    let numbers = numbers_at(alloc, question, &lined, newest, &mut looked.fixed)?;
    looked.heeded = looked.lines.len();
    lines_at(alloc, question, &lined, &looked.lines, &numbers)
}

/// Whether a line is a congruence that isn't among these.
fn is_new(lines: &[Line], line: &Line) -> bool {
    match line {
        Line::Congruent(_, _) => !lines.contains(line),
        _ => false,
    }
}

/// Whether there are lines, and each is a congruence that isn't among those before: then the numbers by which they are heeded are worth
/// another look.
fn are_new(lines: &[Line], more: &[Line]) -> bool {
    for line in more {
        if !is_new(lines, line) {
            return false;
        }
    }
    !more.is_empty()
}

/// One look: the lines that are wanted come in, and whether another look is worth while.
fn step(alloc: Global, question: Question<'_, '_>, looked: &mut Looked) -> Result<bool, AllocError>
    requires typed { IsTyped (meaning_of (program_of question.program.now)) }
    requires scalars { is_over_values (meaning_of (program_of question.program.now)) ≡ true }
    requires prepared { IsPrepared (program_of question.program.now) question.place.now.implementation question.prepared.now }
    requires there { AreThere (program_of question.program.now) question.place.now.implementation question.prepared.now (lines_of looked.old.lines.items) }
    ensures { OnOk result (AreThere (program_of question.entry.program.now) question.entry.place.now.implementation question.entry.prepared.now (lines_of looked.new.lines.items)) }
{
    let more = looked_at(alloc, question, looked)?;
    let goes_on = are_new(&looked.lines, &more);
    push_all(&mut looked.lines, &more)?;
    Ok(goes_on)
}

/// Lines that a place may want behind these, before anything is searched: those that are wanted at scalars that are made up, and those that
/// are wanted where these are heeded, and so on.
///
/// Only want of memory is an error; 2^32 incarnations and terms count as such.
pub fn lines_first(
    alloc: Global,
    question: Question<'_, '_>,
    lines: Vec<Line>,
) -> Result<Vec<Line>, AllocError>
    requires typed { IsTyped (meaning_of (program_of question.program.now)) }
    requires scalars { is_over_values (meaning_of (program_of question.program.now)) ≡ true }
    requires prepared { IsPrepared (program_of question.program.now) question.place.now.implementation question.prepared.now }
    requires there { AreThere (program_of question.program.now) question.place.now.implementation question.prepared.now (lines_of lines.items) }
    ensures { IfOk result (λ made. AreThere (program_of question.entry.program.now) question.entry.place.now.implementation question.entry.prepared.now (lines_of made.items)) }
{
    let most = question.prepared.terms.len().saturating_mul(4);
    let mut looked = Looked {
        lines,
        heeded: 0,
        fixed: Vec::new(alloc),
    };
    for _ in 0..MOST_STEPS {
        if most < looked.lines.len() || !step(alloc, question, &mut looked)? {
            return Ok(looked.lines);
        }
    }
    Ok(looked.lines)
}

/// What a few searches for a place tell behind lines that name what is there, and behind those that are wanted at the leaves that they come
/// to; nothing, where they neither prove nor refute it.
///
/// Only want of memory is an error; 2^32 atoms count as such.
pub fn first_try(
    alloc: Global,
    question: Question<'_, '_>,
    effort: Effort,
    lines: Vec<Line>,
) -> Result<Option<Verdict>, AllocError>
    requires typed { IsTyped (meaning_of (program_of question.program.now)) }
    requires scalars { is_over_values (meaning_of (program_of question.program.now)) ≡ true }
    requires prepared { IsPrepared (program_of question.program.now) question.place.now.implementation question.prepared.now }
    requires asked { IsAsked (meaning_of (program_of question.program.now)) (has question.set.now) (placed_of question.place.now).place }
    requires there { AreThere (program_of question.program.now) question.place.now.implementation question.prepared.now (lines_of lines.items) }
    ensures whole { IfOk result (λ o. IfSome o (λ verdict. effort.keeps ≡ true → has_all verdict ≡ true)) }
    ensures right { IfOk result (λ o. IfSome o (λ verdict. IsRight effort.budget (meaning_of (program_of question.entry.program.now)) (has question.entry.set.now) (placed_of question.entry.place.now).place verdict)) }
{
    let mut lines = lines;
    for _ in 0..MOST_SEARCHES {
        match search_place(alloc, question, effort, &lines)? {
            Found::Proved(cert) => return Ok(Some(Verdict::Proved(proof_of(lines, cert)))),
            Found::Refuted(cex) => return Ok(Some(Verdict::Refuted(cex))),
            Found::Unknown(_) => return Ok(None),
            Found::Wanted(round) => push_all(&mut lines, &round.lines)?,
        }
    }
    Ok(None)
}
