//! Rounds of checks over one shared set of candidates, for any checker of targets: the inference of
//! Flanagan and Leino (Houdini, an annotation assistant for ESC/Java, FME 2001), by workers at once.
#![tactic(auto)]

mod alone;
mod checker;
mod closing;
mod crew;
mod ending;
mod keeper;
mod law;
mod opening;
mod outcome;
mod rounds;
mod seat;
mod shelf;
mod threaded;
mod threads;
mod visiting;
mod worker;

pub use alone::infer_alone;
pub use checker::{Answer, Checker, Finding, Kept};
pub use keeper::Removal;
pub use law::{outcomes_agree, retained_is_greatest, retained_is_inductive};
pub use outcome::Outcome;
pub use threaded::infer;
