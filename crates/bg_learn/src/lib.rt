//! An engine that proposes: a certificate that a formula has no valuation, or values with which it holds. It learns clauses over atoms
//! that are bounds of columns, with a simplex below. Proved is that each call ends, and is safe; and that there is a certificate where it
//! says so of one that isn't kept. Of what else it proposes nothing is proved.
#![tactic(auto)]

mod aim;
mod answer;
mod groups;
mod leaf;
mod near;
mod pairs;
mod path;
mod search;
mod start;
mod trim;
mod uses;
mod write;

pub use answer::{Aim, Proposal, propose};
pub use bg_trail::Limits;
