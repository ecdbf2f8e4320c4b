//! Rows are refuted, or an order of their variables solves them.
#![tactic(auto)]

mod columns;
mod cost;
mod every;
mod find;
mod keep;
pub mod laws;
mod order;
mod pair;
mod refute;
mod retire;
mod round;
mod stand;
mod start;
mod take;
mod variables;
mod work;

pub use find::refute_or_order;
pub use order::{Found, Further, Order, Reason, Stop};
