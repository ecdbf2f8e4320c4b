//! Verdicts.
use crate::kept::Kept;
use crate::proof::Proof;
use bg_base::OutOfRange;
use bg_model::Counterexample;
use bg_places::Place;
use bg_term_table::Line;
use bg_tree::{Leaf, Why};

/// A complete leaf that isn't finished, and the lines that come in there: at least one is an instance, and each instance is false at the leaf
/// or names a term that comes in with it.
#[derive(Drop)]
pub struct Round {
    pub leaf: Leaf,
    pub lines: Vec<Line>,
}

/// Why a place is left unknown, behind the lines of its rounds.
#[derive(Drop)]
pub enum Cause {
    /// The search finds neither a certificate nor a complete leaf.
    Search(Why),
    /// There are as many rounds as the budget has nodes.
    Rounds,
    /// There are no clauses: this operation of a relation's linear form, which counts for the place, leaves 128 bits.
    Form(OutOfRange),
    /// At this complete leaf an operation of a term's argument leaves 128 bits.
    Argument(Leaf, OutOfRange),
    /// The run of this counterexample fails at the place, but this operation on its way leaves 128 bits.
    Replay(Counterexample, OutOfRange),
}

/// What is known of a place.
#[derive(Drop)]
pub enum Verdict {
    /// There is a certificate, behind lines, that the place's check never fails: this one, or one that wasn't kept.
    Proved(Option<Proof>),
    /// The induction run of this counterexample fails there, each operation on its way within 128 bits.
    Refuted(Counterexample),
    /// Neither was found, after these rounds of lines, for this cause.
    Unknown(Vec<Round>, Cause),
    /// Neither was found; this is told of the cause, which wasn't kept.
    Left(Kept),
}

/// A place, and what is known of it.
#[derive(Drop)]
pub struct Judged {
    pub place: Place,
    pub verdict: Verdict,
}
