//! The replay of a counterexample: the run of an implementation's blocks over values, exactly.
#![tactic(auto)]

mod call;
mod clauses;
mod command;
mod ending;
mod holds;
pub mod laws;
mod moment;
mod run;
mod values;
mod whole;

pub use bg_scalar::Choice;
pub use ending::Ending;
pub use holds::is_of;
pub use whole::{Code, Start, replay};
