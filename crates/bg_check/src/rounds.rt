//! Rounds of lines.
ghost use Rattle.std.specs.Prelude.{◌≡◌, ◌<◌, true, [], OnOk, IfOk, IfSome};
ghost use Rattle.bg_ast.specs.Meaning.{meaning_of};
ghost use Rattle.bg_ast.specs.Views.{program_of};
ghost use Rattle.bg_sense.specs.Typed.{IsTyped};
ghost use Rattle.bg_places.specs.Views.{placed_of};
ghost use Rattle.bg_cert.specs.Walks.{has};
ghost use Rattle.bg_fits.specs.Valued.{is_over_values};
ghost use Rattle.bg_term_table.specs.Lines.{lines_of};
ghost use Rattle.bg_task.specs.Lines.{AreThere};
ghost use Rattle.bg_task.specs.Asked.{IsAsked};
ghost use Rattle.bg_task.specs.Prepared.{IsPrepared};
ghost use Rattle.bg_check.specs.Rounds.{IsRound};
ghost use Rattle.bg_check.specs.Verdicts.{IsRight, has_all};
ghost use Rattle.bg_check.specs.Stands.{IsMore};

use crate::effort::Effort;
use crate::first::{claim_speaks, first_try, lines_first, push_all};
use crate::found::Found;
use crate::place::search_place;
use crate::proof::proof_of;
use crate::tries::{Tries, after, no_tries};
use crate::verdict::{Cause, Round, Verdict};
use bg_task::Question;
use bg_term_table::Line;
use bg_tree::Budget;
use std::alloc::{AllocError, Global};

/// The rounds so far, their lines, and how many of the budget's nodes are left.
#[derive(Drop)]
pub struct Stand {
    pub rounds: Vec<Round>,
    pub lines: Vec<Line>,
    pub left: u32,
}

/// One more round, and its lines.
fn add(stand: &mut Stand, round: Round) -> Result<(), AllocError>
    requires { 0 < stand.old.left }
    ensures { OnOk result (IsMore stand.old round stand.new) }
{
    push_all(&mut stand.lines, &round.lines)?;
    stand.rounds.push(round)?;
    stand.left -= 1;
    Ok(())
}

/// What a first try tells behind these lines, which name what is there, and those that may be wanted behind them; nothing where there are
/// none of these.
fn tried(
    alloc: Global,
    question: Question<'_, '_>,
    effort: Effort,
    lines: Vec<Line>,
    tries: &mut Tries,
) -> Result<Option<Verdict>, AllocError>
    requires typed { IsTyped (meaning_of (program_of question.program.now)) }
    requires scalars { is_over_values (meaning_of (program_of question.program.now)) ≡ true }
    requires prepared { IsPrepared (program_of question.program.now) question.place.now.implementation question.prepared.now }
    requires asked { IsAsked (meaning_of (program_of question.program.now)) (has question.set.now) (placed_of question.place.now).place }
    requires there { AreThere (program_of question.program.now) question.place.now.implementation question.prepared.now (lines_of lines.items) }
    ensures whole { IfOk result (λ o. IfSome o (λ verdict. effort.keeps ≡ true → has_all verdict ≡ true)) }
    ensures right { IfOk result (λ o. IfSome o (λ verdict. IsRight effort.budget (meaning_of (program_of question.entry.program.now)) (has question.entry.set.now) (placed_of question.entry.place.now).place verdict)) }
{
    let count = lines.len();
    let lines = lines_first(alloc, question, lines)?;
    if lines.len() <= count {
        return Ok(None);
    }
    let made = first_try(alloc, question, effort, lines)?;
    *tries = after(*tries, made.is_some());
    Ok(made)
}

/// What a try tells behind the lines of the first round.
fn tried_behind(
    alloc: Global,
    question: Question<'_, '_>,
    effort: Effort,
    round: &Round,
    tries: &mut Tries,
) -> Result<Option<Verdict>, AllocError>
    requires typed { IsTyped (meaning_of (program_of question.program.now)) }
    requires scalars { is_over_values (meaning_of (program_of question.program.now)) ≡ true }
    requires prepared { IsPrepared (program_of question.program.now) question.place.now.implementation question.prepared.now }
    requires asked { IsAsked (meaning_of (program_of question.program.now)) (has question.set.now) (placed_of question.place.now).place }
    requires round { IsRound (meaning_of (program_of question.program.now)) (has question.set.now) (placed_of question.place.now).place [] round.now }
    ensures whole { IfOk result (λ o. IfSome o (λ verdict. effort.keeps ≡ true → has_all verdict ≡ true)) }
    ensures right { IfOk result (λ o. IfSome o (λ verdict. IsRight effort.budget (meaning_of (program_of question.entry.program.now)) (has question.entry.set.now) (placed_of question.entry.place.now).place verdict)) }
{
    let mut lines = Vec::new(alloc);
    push_all(&mut lines, &round.lines)?;
    tried(alloc, question, effort, lines, tries)
}

/// What is known of a place after rounds. At each complete leaf that isn't finished lines come in that are wanted there, and the search
/// begins anew. A round counts as one of the budget's nodes, and in a search at most those count that are left; it keeps at most the
/// budget's rows. Where first tries are worth while, one is made behind the first round's lines.
fn in_rounds(
    alloc: Global,
    question: Question<'_, '_>,
    effort: Effort,
    tries: &mut Tries,
) -> Result<Verdict, AllocError>
    requires typed { IsTyped (meaning_of (program_of question.program.now)) }
    requires scalars { is_over_values (meaning_of (program_of question.program.now)) ≡ true }
    requires prepared { IsPrepared (program_of question.program.now) question.place.now.implementation question.prepared.now }
    requires asked { IsAsked (meaning_of (program_of question.program.now)) (has question.set.now) (placed_of question.place.now).place }
    ensures whole { IfOk result (λ verdict. effort.keeps ≡ true → has_all verdict ≡ true) }
    ensures right { IfOk result (λ verdict. IsRight effort.budget (meaning_of (program_of question.entry.program.now)) (has question.entry.set.now) (placed_of question.entry.place.now).place verdict) }
{
    let mut stand = Stand {
        rounds: Vec::new(alloc),
        lines: Vec::new(alloc),
        left: effort.budget.nodes,
    };
    loop {
        let left = Effort {
            budget: Budget {
                nodes: stand.left,
                rows: effort.budget.rows,
            },
            keeps: effort.keeps,
        };
        match search_place(alloc, question, left, &stand.lines)? {
            Found::Proved(cert) => {
                let lines = stand.lines;
                return Ok(Verdict::Proved(proof_of(lines, cert)));
            }
            Found::Refuted(cex) => return Ok(Verdict::Refuted(cex)),
            Found::Unknown(cause) => return Ok(Verdict::Unknown(stand.rounds, cause)),
            Found::Wanted(round) => {
                if stand.left == 0 {
                    return Ok(Verdict::Unknown(stand.rounds, Cause::Rounds));
                }
                if stand.lines.is_empty() && tries.left > 0 {
                    if let Some(verdict) = tried_behind(alloc, question, effort, &round, tries)? {
                        return Ok(verdict);
                    }
                }
                add(&mut stand, round)?;
            }
        }
    }
}

/// What is known of a place of a typed program over values, under a set of candidates that has the place's own, if it has one. Where first
/// tries are worth while one is made, behind lines that may be wanted: at once, where the place's claim speaks of terms, or else where its
/// first search wants lines. Where it tells nothing the place has its rounds. The verdict has its certificate or its cause where such are
/// kept.
///
/// Only want of memory is an error; 2^32 atoms count as such.
pub fn check_place(
    alloc: Global,
    question: Question<'_, '_>,
    effort: Effort,
    tries: &mut Tries,
) -> Result<Verdict, AllocError>
    requires typed { IsTyped (meaning_of (program_of question.program.now)) }
    requires scalars { is_over_values (meaning_of (program_of question.program.now)) ≡ true }
    requires prepared { IsPrepared (program_of question.program.now) question.place.now.implementation question.prepared.now }
    requires asked { IsAsked (meaning_of (program_of question.program.now)) (has question.set.now) (placed_of question.place.now).place }
    ensures whole { IfOk result (λ verdict. effort.keeps ≡ true → has_all verdict ≡ true) }
    ensures right { IfOk result (λ verdict. IsRight effort.budget (meaning_of (program_of question.entry.program.now)) (has question.entry.set.now) (placed_of question.entry.place.now).place verdict) }
{
    if tries.left > 0 && claim_speaks(alloc, question)? {
        if let Some(verdict) = tried(alloc, question, effort, Vec::new(alloc), tries)? {
            return Ok(verdict);
        }
        return in_rounds(alloc, question, effort, &mut no_tries());
    }
    in_rounds(alloc, question, effort, tries)
}
