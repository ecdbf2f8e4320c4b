//! What an inference comes to.
use crate::Reason;
use bg_check::{Judged, Proof};

/// The retained candidates, the history of the dropped ones and the candidates that the certificates of their tasks use, by the number of
/// the task, with the certificates behind lines where these are kept; and what is known of each ordinary place under the retained
/// candidates, by implementation and place.
#[derive(Drop)]
pub struct Outcome {
    pub inferred: bg_rounds::Outcome<Option<Proof>, Reason>,
    pub verdicts: Vec<Vec<Judged>>,
}
