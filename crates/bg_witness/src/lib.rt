//! What verdicts rest on, looked at again: certificates by the checker that knows no search, counterexamples by the replay.
#![tactic(auto)]

#[cfg(test)]
mod tests;
mod text;
mod there;

pub use text::judged_program;
pub use there::are_there;
