//! How much of a program there is once bodies of functions stand in the place of their applications: the longest chain of bodies, and
//! expression nodes. Both are counted before anything is put in.
#![tactic(auto)]

mod applied;
mod bodies;
mod chains;
mod count;
mod expanded;
pub mod laws;
mod nodes;
mod pairs;
mod ranked;
mod sized;

pub use chains::longest_chain;
pub use expanded::is_any_too_large;
