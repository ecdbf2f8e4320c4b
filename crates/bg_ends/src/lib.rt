//! How a run of the program ends: its status, and the line on standard error of a refusal.
#![tactic(auto)]

mod lines;
mod status;

pub use lines::{refuse, refuse_file, refuse_text};
pub use status::Status;
