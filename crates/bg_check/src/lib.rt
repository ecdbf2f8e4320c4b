//! What is known of a place of a program over truth values, whole numbers, elements of user types, maps and functions on them: proved
//! with a certificate behind lines, refuted with a counterexample, or unknown with the rounds of lines and what is kept of a budget, or an
//! operation that leaves 128 bits.
#![tactic(auto)]

mod attempt;
mod brief;
mod claimed;
mod dropping;
mod easy;
mod effort;
mod failing;
mod first;
mod fitting;
mod found;
mod front;
mod heeded;
mod implementation;
mod kept;
pub mod laws;
mod leaf;
mod ordinary;
mod place;
mod proof;
mod relevant;
mod replayed;
mod rounds;
mod spoken;
mod tries;
mod verdict;

pub use effort::Effort;
pub use implementation::{judge_ordinary, judge_places};
pub use kept::{Kept, kept_of};
pub use ordinary::ordinary_places;
pub use proof::Proof;
pub use rounds::check_place;
pub use tries::{Tries, no_tries, some_tries};
pub use verdict::{Cause, Judged, Round, Verdict};
