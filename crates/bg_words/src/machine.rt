//! The states and events of the shared set as plain data. A set of candidates is a list of truth
//! values, one for each number.
use bg_base::{CandId, Row, TargetId};

/// One drop of a candidate: the number that was drawn for it, the snapshot under which the check
/// didn't pass, and whether the clearing still found the candidate there.
#[derive(Drop)]
pub struct Entry {
    pub number: u64,
    pub cand: CandId,
    pub snapshot: Row<bool>,
    pub was_there: bool,
}

/// What a worker knows of the shared set, and what it did to it.
#[derive(Drop)]
pub struct Seen {
    /// The candidates that it knows to be gone.
    pub missing: Row<bool>,
    /// The candidates of its last snapshot, as far as that is loaded.
    pub snapshot: Row<bool>,
    /// How many words of that snapshot are loaded.
    pub loaded: u64,
    /// The number that it drew, until it clears.
    pub pending: Option<u64>,
    pub entries: Row<Entry>,
}

/// A place that has a candidate, with that candidate.
#[derive(Clone, Copy)]
pub struct Task {
    pub target: TargetId,
    pub cand: CandId,
}

/// Where a worker stands.
#[derive(Clone, Copy)]
pub enum Stage {
    /// It has taken nothing yet.
    Resting,
    /// It took this task, or none, and loads its snapshot.
    Looking(Option<Task>),
    /// The task is done: it passed, or its candidate is cleared.
    Answered,
    /// The check didn't pass. The flag says that it ended unknown.
    Dropping(Task, bool),
    /// A number is drawn for the task's candidate, which isn't cleared yet.
    Waiting(Task, bool),
    /// It was merged into the first worker.
    Gone,
}

/// A kept answer: the target passes under each set that has the used candidates.
#[derive(Drop)]
pub struct Pass {
    pub task: Task,
    pub used: Row<bool>,
}

/// A kept answer: the target fails, or its check ended unknown.
#[derive(Clone, Copy)]
pub struct Decision {
    pub target: TargetId,
    pub unknown: bool,
}

/// A worker. Its k-th entry has the target and the answer of its k-th decision.
#[derive(Drop)]
pub struct Worker {
    pub seen: Seen,
    pub stage: Stage,
    pub decisions: Row<Decision>,
    pub passes: Row<Pass>,
}

/// The shared set, the counter of draws, and the workers, of which number 0 is the first.
#[derive(Drop)]
pub struct CoreState {
    /// How many candidates were declared.
    pub cands: u32,
    /// The next number of a draw.
    pub next: u64,
    /// The candidates that are present.
    pub words: Row<bool>,
    pub workers: Row<Worker>,
}

/// What a check told: the target passes by these candidates alone, or it doesn't, and then whether
/// the check ended unknown.
#[derive(Drop)]
pub enum Answer {
    Holds(Row<bool>),
    Fails(bool),
}

/// One step of the worker whose number comes first; a fork is a step of worker 0.
#[derive(Drop)]
pub enum Event {
    /// A task is taken, or none, and a new snapshot begins.
    Take(u64, Option<Task>),
    /// The word of this number is loaded into the snapshot.
    Load(u64, u64),
    /// The check of the task is answered.
    Answers(u64, Answer),
    /// A number is drawn for the task's candidate.
    Draw(u64),
    /// The task's candidate is cleared.
    Clear(u64),
    /// Worker 0 makes a worker, which knows what it knows.
    Fork,
    /// Worker 0 takes in another worker.
    Merge(u64),
}
