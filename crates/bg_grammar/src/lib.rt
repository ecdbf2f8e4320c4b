//! Rules of a grammar: readers put together, and what makes them exact.
#![tactic(auto)]

mod depth;
mod kinds;

pub use depth::below;
pub use kinds::{after_one_of, is_in};
