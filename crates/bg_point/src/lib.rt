//! A near whole-number point is read off an order of variables and its kept rows.
#![tactic(auto)]

mod allow;
mod choose;
mod find;
pub mod laws;
mod limit;
mod shelves;
mod span;
mod spot;

pub use find::point;
pub use spot::{Far, Gap, Placed, Spot};
