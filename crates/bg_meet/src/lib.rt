//! The dilemma rule of Stålmarck at the root of a search: what the alternatives of a clause have in common becomes known, literals,
//! bounds of terms and of their differences, and equalities. Nothing is proved of what is claimed: each claim is a lemma with a proof,
//! which a certificate repeats. Proved is that each call ends, and is safe.
#![tactic(auto)]

mod dilemma;
mod equal;
mod flow;
mod occurs;
mod shared;
mod way;

pub use dilemma::meet;
pub use flow::Flow;
