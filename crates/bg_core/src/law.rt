//! What holds of every state that events reach.
ghost use Rattle.std.specs.Prelude.{◌≡◌, ℕ, ◌<◌, ◌↔◌, false, List, Some};
ghost use Rattle.bg_words.specs.declared.machine.CoreState.{CoreState};
ghost use Rattle.bg_words.specs.declared.machine.Event.{Event};
ghost use Rattle.bg_words.specs.Sets.{has};
ghost use Rattle.bg_words.specs.Core.{start, run};
ghost use Rattle.bg_words.specs.History.{Dropped, Ordered, Sound};
ghost use Rattle.bg_words.specs.declared.machine.Entry.{Entry};
ghost use Rattle.bg_words.specs.declared.machine.Pass.{Pass};
ghost use Rattle.bg_words.specs.declared.machine.Decision.{Decision};
ghost use Rattle.bg_core.specs.Ties.{TableSteps, Reaching, SoundTable, OpeningIsStart, FirstIsZero};
ghost use Rattle.bg_core.specs.Inductive.{Candidates, Shrinks, Inductive, Greatest, Right, Closed, NoneUnknown, RightOver, ClosedOver, NoneUnknownIn};

/// Every state that events reach from the start is sound.
pub fn every_state_is_sound()
    ensures { (n : ℕ) (events : List Event) (s : CoreState) → run events (Some (start n)) ≡ Some s → Sound s }
{}

/// What it means that a target fails under a set of candidates, and what causes a check of it to end unknown there.
pub trait Meaning {
    ghost is_target: { ℕ → Type 0 };

    ghost cand: { ℕ → ℕ };

    ghost fails: { ℕ → Candidates → Type 0 };

    ghost causes: { ℕ → Candidates → Type 0 };
}

/// Right answers, and a pass for each target of a candidate that is left, make the set that is left inductive, and the greatest one where no drop was unknown.
pub fn right_answers_are_inductive<M: Meaning>()
    ensures { Shrinks M.is_target M.cand M.fails → (n : ℕ) (events : List Event) (s : CoreState) → run events (Some (start n)) ≡ Some s → Right M.is_target M.cand M.fails M.causes s → Closed M.is_target M.cand M.fails s → Inductive M.is_target M.cand M.fails (has s.words) × (NoneUnknown s → Greatest M.is_target M.cand M.fails s.cands (has s.words)) }
{}

/// The same over any ordered history, as the entries that `finish` gives, with the decisions in their order: `words` has what no entry dropped.
pub fn right_history_is_inductive<M: Meaning>()
    ensures { Shrinks M.is_target M.cand M.fails → (n : ℕ) (words : Candidates) (ps : List Pass) (es : List Entry) (ds : List Decision) → Ordered n es → ((c : ℕ) → c < n → (words c ≡ false) ↔ Dropped es c) → RightOver M.is_target M.cand M.fails M.causes ps es ds → ClosedOver M.is_target M.cand M.fails ps words → Inductive M.is_target M.cand M.fails words × (NoneUnknownIn ds → Greatest M.is_target M.cand M.fails n words) }
{}

/// Each atomic step of a table under its rule, and each answer, is the event of its name. A taking
/// is seen at the first load of its snapshot.
pub fn each_step_is_an_event()
    ensures { TableSteps }
{}

/// A table as it opens is the machine's start.
pub fn an_opening_is_the_start()
    ensures { OpeningIsStart }
{}

/// What steps that are events make of an opening table, beside the workers' own data, is a state
/// that events reach, and so it is sound.
pub fn a_running_table_is_reached()
    ensures { (n : ℕ) → Reaching n }
{}

/// A table under its rule, beside the workers' own data, is a sound state of the machine.
pub fn a_table_is_a_sound_state()
    ensures { SoundTable }
{}

/// The seat that counts as the first, which alone forks and takes in others, is worker 0.
pub fn the_first_seat_is_worker_zero()
    ensures { FirstIsZero }
{}
