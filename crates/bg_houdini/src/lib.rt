//! The candidates of a program: which of them hold together, found by checks of their places under shrinking sets.
#![tactic(auto)]

mod answer;
mod apart;
mod chunks;
mod desk;
mod inference;
mod judging;
pub mod laws;
mod making;
mod ordinary;
mod outcome;
mod reason;
mod sets;

pub use inference::infer;
pub use outcome::Outcome;
pub use reason::Reason;
