//! Why a candidate went.
use bg_check::{Cause, Kept, Round};
use bg_model::Counterexample;

/// Why a place of a candidate isn't proved under a set of candidates.
#[derive(Drop)]
pub enum Reason {
    /// The induction run of this counterexample fails there.
    Refuted(Counterexample),
    /// Neither a certificate nor such a run was found, after these rounds of lines, for this cause.
    Unknown(Vec<Round>, Cause),
    /// Neither was found; this is told of the cause, which wasn't kept.
    Left(Kept),
}
