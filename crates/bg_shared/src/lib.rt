//! The shared set of candidates as a table of words that workers read and clear in single atomic
//! steps, and the seats that they do it with.
#![tactic(auto)]

mod calls;
mod shared;
mod view;

pub use shared::{CandSeat, Cleared, Shared};
pub use view::View;
