//! What a search for a place finds.
use crate::verdict::{Cause, Round};
use bg_cert::Cert;
use bg_model::Counterexample;

/// What a search for a place finds behind the lines so far: that there is a certificate, with it where it is kept; a counterexample; why
/// neither was found; or what comes in at a complete leaf that isn't finished.
#[derive(Drop)]
pub enum Found {
    Proved(Option<Cert>),
    Refuted(Counterexample),
    Unknown(Cause),
    Wanted(Round),
}
