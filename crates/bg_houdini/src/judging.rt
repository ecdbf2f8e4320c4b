//! A program as a checker of the places of its candidates.
ghost use Rattle.std.specs.Prelude.{◌≡◌, ◌<◌, true, Some, length, slice_get, IfOk};
ghost use Rattle.bg_ast.specs.Execution as run;
ghost use Rattle.bg_words.specs.Sets.{has};
ghost use Rattle.bg_check.specs.Verdicts.{IsRight, has_all};
ghost use Rattle.bg_houdini.specs.Tasks.{tasks_of, candidate_of};
ghost use Rattle.bg_houdini.specs.Checks.{TaskFails, TaskPasses, TaskFinds};
ghost use Rattle.bg_houdini.specs.Checkers.{IsJudging, meaning_in};

use crate::Reason;
use crate::answer::answer;
use crate::desk::{Desk, lay, new_desk};
use bg_ast::resolved::Resolved;
use bg_base::{CandId, TargetId};
use bg_check::{Effort, Proof, Verdict, check_place, no_tries};
use bg_places::Place;
use bg_places::laws::placed_are_places;
use bg_rounds::{Answer, Checker};
use bg_task::{Prepared, Question};
use bg_words::CandSet;
use std::alloc::{AllocError, Global};

/// A program, each of its implementations prepared, its tasks (the places with a candidate, by implementation and place), how many
/// candidates it has, how much a check may take, and whether certificates and causes are kept.
#[derive(Drop)]
pub struct Judging<'p> {
    pub program: &'p Resolved,
    pub prepared: Vec<Prepared<'p>>,
    pub tasks: Vec<Place>,
    pub candidates: u32,
    pub effort: Effort,
}

/// What is known of a task under a set of candidates that has the task's own.
fn verdict_on(
    alloc: Global,
    judging: &Judging<'_>,
    desk: &mut Desk,
    t: TargetId,
    set: &CandSet,
) -> Result<Verdict, AllocError>
    requires stands { IsJudging judging.now }
    requires target { t.0 < length (tasks_of (meaning_in judging.now)) }
    requires inside { has set.now (candidate_of (meaning_in judging.now) t.0) ≡ true }
    ensures whole { IfOk result (λ verdict. has_all verdict ≡ true) }
    ensures right { IfOk result (λ verdict. (task : run.Place) → slice_get (tasks_of (meaning_in judging.now)) t.0 ≡ Some task → IsRight judging.now.effort.budget (meaning_in judging.now) (has set.now) task verdict) }
{
    placed_are_places();
    let place = &judging.tasks[t.0 as usize];
    lay(alloc, desk, set)?;
    let prepared = &judging.prepared[place.implementation];
    let question = Question {
        program: judging.program,
        prepared,
        place,
        set: &desk.truths,
    };
    let effort = Effort {
        budget: judging.effort.budget,
        keeps: true,
    };
    check_place(alloc, question, effort, &mut no_tries())
}

impl<'p> Checker<Option<Proof>, Reason, Desk> for Judging<'p> {
    ghost stands = { IsJudging };

    ghost cands = { λ s. (meaning_in s).candidates };

    ghost targets = { λ s. length (tasks_of (meaning_in s)) };

    ghost cand = { λ s. candidate_of (meaning_in s) };

    ghost fails = { λ s. TaskFails (meaning_in s) };

    ghost passes = { λ s. TaskPasses s.effort.keeps (meaning_in s) };

    ghost finds = { λ s. TaskFinds s.effort.budget (meaning_in s) };

    fn cand_count(&self) -> u32 {
        self.candidates
    }

    fn target_count(&self) -> u32 {
        self.tasks.len() as u32
    }

    fn cand_of(&self, t: TargetId) -> CandId {
        match self.tasks[t.0 as usize].candidate {
            Some(c) => c,
            None => unreachable!(),
        }
    }

    fn desk(&self, alloc: Global) -> Result<Desk, AllocError> {
        new_desk(alloc, self.candidates)
    }

    fn check(
        &self,
        alloc: Global,
        desk: &mut Desk,
        t: TargetId,
        set: &CandSet,
    ) -> Result<Answer<Option<Proof>, Reason>, AllocError> {
        let verdict = verdict_on(alloc, self, desk, t, set)?;
        answer(alloc, verdict, self.candidates, self.effort.keeps)
    }

    ghost below = { λ s stands. stands.owed.below };

    ghost shrinks = { λ s stands. stands.owed.shrinks };

    ghost passing = { λ s stands k used set proof passes. stands.owed.passing k used set proof passes.0 };

    ghost failing = { λ s stands. stands.owed.failing };
}
