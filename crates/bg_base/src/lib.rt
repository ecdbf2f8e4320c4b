//! What every crate may speak with: positions, numbers of their own types, lists that contracts
//! see as lists, and arithmetic that is exact or refuses.
#![tactic(auto)]

mod copied;
pub mod exact;
mod ids;
pub mod laws;
mod pos;
mod row;

pub use copied::Copied;
pub use exact::{Op, OutOfRange, add, floor_div, gcd, mul, neg, sub};
pub use ids::{CandId, NameId, PlaceId, TargetId};
pub use pos::Pos;
pub use row::Row;
