//! One event.
ghost use Rattle.std.specs.Prelude.{◌≡◌, ℕ, ◌<◌, length, slice_set, [], ◌∷◌, ◌++◌, Some, None, IfOk};
ghost use Rattle.bg_words.specs.Core.{worker_of, put, step, may_take, is_looking, with_stage, may_answer, answered, clears_pending, is_gone};
ghost use Rattle.bg_words.specs.Steps.{newcomer, drew, joined};
ghost use Rattle.bg_words.specs.declared.machine.Stage.TheVariants.{Answered, Waiting};
ghost use Rattle.bg_words.specs.declared.machine.Event.TheVariants.{Take, Load, Answers, Draw, Clear, Fork, Merge};

use crate::sets::{appended, clear_seen, cut, has_at, join_seen, look, whole, within};
use bg_base::{Copied, Row};
use bg_words::{Answer, CoreState, Decision, Event, Pass, Seen, Stage, Task, Worker};
use std::alloc::{AllocError, Global};

pub(crate) fn takes(stage: &Stage) -> bool
    ensures { result ≡ may_take stage.now }
{
    match stage {
        Stage::Resting | Stage::Looking(_) | Stage::Answered => true,
        Stage::Dropping(..) | Stage::Waiting(..) | Stage::Gone => false,
    }
}

pub(crate) fn looks(stage: &Stage) -> bool
    ensures { result ≡ is_looking stage.now }
{
    matches!(stage, Stage::Looking(_))
}

// A worker that knows these candidates to be gone, and has done nothing.
pub(crate) fn newcomer(alloc: Global, missing: Row<bool>) -> Worker
    ensures { result ≡ worker_of (newcomer missing) }
{
    let seen = Seen {
        missing,
        snapshot: Row::new(alloc),
        loaded: 0,
        pending: None,
        entries: Row::new(alloc),
    };
    Worker {
        seen,
        stage: Stage::Resting,
        decisions: Row::new(alloc),
        passes: Row::new(alloc),
    }
}

pub(crate) fn put_worker(
    alloc: Global,
    s: &CoreState,
    w: u64,
    u: Worker,
) -> Result<CoreState, AllocError>
    requires { w < length s.now.workers }
    ensures { IfOk result (λ r. r ≡ put s.now w u) }
{
    let mut made = s.copied(alloc)?;
    made.workers.set(w as usize, u);
    Ok(made)
}

pub(crate) fn take(
    alloc: Global,
    s: &CoreState,
    w: u64,
    task: Option<Task>,
) -> Result<Option<CoreState>, AllocError>
    ensures { IfOk result (λ r. r ≡ step s.now (Take w task)) }
{
    let Some(u) = s.workers.get(w as usize) else {
        return Ok(None);
    };
    if !takes(&u.stage) {
        return Ok(None);
    }
    let mut made = u.copied(alloc)?;
    made.seen.snapshot = Row::new(alloc);
    made.seen.loaded = 0;
    made.stage = Stage::Looking(task);
    Ok(Some(put_worker(alloc, s, w, made)?))
}

pub(crate) fn load(
    alloc: Global,
    s: &CoreState,
    w: u64,
    i: u64,
) -> Result<Option<CoreState>, AllocError>
    ensures { IfOk result (λ r. r ≡ step s.now (Load w i)) }
{
    let Some(u) = s.workers.get(w as usize) else {
        return Ok(None);
    };
    if !(looks(&u.stage) && i == u.seen.loaded && i < u64::from(s.cands.div_ceil(64))) {
        return Ok(None);
    }
    let seen = look(alloc, s.cands, &u.seen, i, &s.words)?;
    let mut made = u.copied(alloc)?;
    made.seen = seen;
    Ok(Some(put_worker(alloc, s, w, made)?))
}

// A copy of the worker in another stage.
fn staged(alloc: Global, u: &Worker, stage: Stage) -> Result<Worker, AllocError>
    ensures { IfOk result (λ r. r ≡ with_stage u.now u.now.seen stage) }
{
    let mut made = u.copied(alloc)?;
    made.stage = stage;
    Ok(made)
}

fn can_answer(n: u32, v: &Seen, t: &Task) -> bool
    ensures { result ≡ may_answer n v.now t.now }
{
    whole(n, v.loaded) && (t.cand.0 < n && has_at(&v.snapshot, t.cand.0))
}

fn passed(alloc: Global, u: &Worker, task: Task, used: Row<bool>) -> Result<Worker, AllocError>
    ensures { IfOk result (λ r. r ≡ record { seen = u.now.seen; stage = Answered; decisions = u.now.decisions; passes = u.now.passes ++ record { task = task; used = used } ∷ [] }) }
{
    let mut made = u.copied(alloc)?;
    made.passes.push(Pass { task, used })?;
    made.stage = Stage::Answered;
    Ok(made)
}

fn answer_task(
    alloc: Global,
    s: &CoreState,
    w: u64,
    u: &Worker,
    task: Task,
    a: Answer,
) -> Result<Option<CoreState>, AllocError>
    requires { w < length s.now.workers }
    ensures { IfOk result (λ r. r ≡ answered s.now w u.now task a) }
{
    let may = can_answer(s.cands, &u.seen, &task);
    match a {
        Answer::Holds(used) => {
            if !(may && within(s.cands, &used, &u.seen.snapshot)) {
                return Ok(None);
            }
            let made = passed(alloc, u, task, used)?;
            Ok(Some(put_worker(alloc, s, w, made)?))
        }
        Answer::Fails(unknown) => {
            if !may {
                return Ok(None);
            }
            let made = staged(alloc, u, Stage::Dropping(task, unknown))?;
            Ok(Some(put_worker(alloc, s, w, made)?))
        }
    }
}

pub(crate) fn answer(
    alloc: Global,
    s: &CoreState,
    w: u64,
    a: Answer,
) -> Result<Option<CoreState>, AllocError>
    ensures { IfOk result (λ r. r ≡ step s.now (Answers w a)) }
{
    let Some(u) = s.workers.get(w as usize) else {
        return Ok(None);
    };
    match &u.stage {
        Stage::Looking(Some(task)) => answer_task(alloc, s, w, u, *task, a),
        Stage::Looking(None)
        | Stage::Resting
        | Stage::Answered
        | Stage::Dropping(..)
        | Stage::Waiting(..)
        | Stage::Gone => Ok(None),
    }
}

fn drawn(
    alloc: Global,
    u: &Worker,
    task: Task,
    unknown: bool,
    number: u64,
) -> Result<Worker, AllocError>
    ensures { IfOk result (λ r. r ≡ with_stage u.now (drew u.now.seen number) (Waiting task unknown)) }
{
    let mut made = u.copied(alloc)?;
    made.seen.pending = Some(number);
    made.stage = Stage::Waiting(task, unknown);
    Ok(made)
}

pub(crate) fn draw(alloc: Global, s: &CoreState, w: u64) -> Result<Option<CoreState>, AllocError>
    ensures { IfOk result (λ r. r ≡ step s.now (Draw w)) }
{
    let Some(u) = s.workers.get(w as usize) else {
        return Ok(None);
    };
    match &u.stage {
        Stage::Dropping(task, unknown) => {
            if s.next == u64::MAX {
                return Ok(None);
            }
            let made = drawn(alloc, u, *task, *unknown, s.next)?;
            let mut after = put_worker(alloc, s, w, made)?;
            after.next = s.next + 1;
            Ok(Some(after))
        }
        Stage::Resting | Stage::Looking(_) | Stage::Answered | Stage::Waiting(..) | Stage::Gone => {
            Ok(None)
        }
    }
}

pub(crate) fn fork(alloc: Global, s: &CoreState) -> Result<Option<CoreState>, AllocError>
    ensures { IfOk result (λ r. r ≡ step s.now Fork) }
{
    let Some(u) = s.workers.get(0) else {
        return Ok(None);
    };
    let missing = u.seen.missing.copied(alloc)?;
    let mut made = s.copied(alloc)?;
    made.workers.push(newcomer(alloc, missing))?;
    Ok(Some(made))
}

// The worker, which knows this once it has decided so.
fn decided(alloc: Global, u: &Worker, seen: Seen, decision: Decision) -> Result<Worker, AllocError>
    ensures { IfOk result (λ r. r ≡ record { seen = seen; stage = Answered; decisions = u.now.decisions ++ decision ∷ []; passes = u.now.passes }) }
{
    let mut made = u.copied(alloc)?;
    made.decisions.push(decision)?;
    made.seen = seen;
    made.stage = Stage::Answered;
    Ok(made)
}

fn clear_task(
    alloc: Global,
    s: &CoreState,
    w: u64,
    u: &Worker,
    task: &Task,
    unknown: bool,
) -> Result<Option<CoreState>, AllocError>
    requires { w < length s.now.workers }
    ensures { IfOk result (λ r. r ≡ clears_pending s.now w u.now task.now unknown u.now.seen.pending) }
{
    let Some(number) = u.seen.pending else {
        return Ok(None);
    };
    let there = has_at(&s.words, task.cand.0);
    let seen = clear_seen(alloc, s.cands, &u.seen, number, task.cand.0, there)?;
    let decision = Decision {
        target: task.target,
        unknown,
    };
    let made = decided(alloc, u, seen, decision)?;
    let mut after = put_worker(alloc, s, w, made)?;
    after.words = cut(alloc, s.cands, &s.words, task.cand.0)?;
    Ok(Some(after))
}

pub(crate) fn clear(alloc: Global, s: &CoreState, w: u64) -> Result<Option<CoreState>, AllocError>
    ensures { IfOk result (λ r. r ≡ step s.now (Clear w)) }
{
    let Some(u) = s.workers.get(w as usize) else {
        return Ok(None);
    };
    match &u.stage {
        Stage::Waiting(task, unknown) => clear_task(alloc, s, w, u, task, *unknown),
        Stage::Resting | Stage::Looking(_) | Stage::Answered | Stage::Dropping(..) | Stage::Gone =>
            Ok(None),
    }
}

fn is_over(stage: &Stage) -> bool
    ensures { result ≡ is_gone stage.now }
{
    matches!(stage, Stage::Gone)
}

fn merged(alloc: Global, n: u32, u: &Worker, o: &Worker) -> Result<Worker, AllocError>
    ensures { IfOk result (λ r. r ≡ record { seen = joined n u.now.seen o.now.seen; stage = u.now.stage; decisions = u.now.decisions ++ o.now.decisions; passes = u.now.passes ++ o.now.passes }) }
{
    let seen = join_seen(alloc, n, &u.seen, &o.seen)?;
    let stage = u.stage.copied(alloc)?;
    let decisions = appended(alloc, &u.decisions, &o.decisions)?;
    let passes = appended(alloc, &u.passes, &o.passes)?;
    Ok(Worker {
        seen,
        stage,
        decisions,
        passes,
    })
}

pub(crate) fn merge(alloc: Global, s: &CoreState, w: u64) -> Result<Option<CoreState>, AllocError>
    ensures { IfOk result (λ r. r ≡ step s.now (Merge w)) }
{
    let Some(u) = s.workers.get(0) else {
        return Ok(None);
    };
    let Some(o) = s.workers.get(w as usize) else {
        return Ok(None);
    };
    if !(0 < w && !is_over(&o.stage)) {
        return Ok(None);
    }
    let made = merged(alloc, s.cands, u, o)?;
    let mut after = put_worker(alloc, s, 0, made)?;
    let mut over = newcomer(alloc, Row::new(alloc));
    over.stage = Stage::Gone;
    after.workers.set(w as usize, over);
    Ok(Some(after))
}

/// The state after an event, None where the event isn't allowed.
pub fn step(alloc: Global, s: &CoreState, event: Event) -> Result<Option<CoreState>, AllocError>
    ensures { IfOk result (λ r. r ≡ step s.now event) }
{
    match event {
        Event::Take(w, task) => take(alloc, s, w, task),
        Event::Load(w, i) => load(alloc, s, w, i),
        Event::Answers(w, a) => answer(alloc, s, w, a),
        Event::Draw(w) => draw(alloc, s, w),
        Event::Clear(w) => clear(alloc, s, w),
        Event::Fork => fork(alloc, s),
        Event::Merge(w) => merge(alloc, s, w),
    }
}
