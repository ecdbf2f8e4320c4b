//! Work for threads: numbers below a limit that seats claim, each once, by one atomic step a claim,
//! and gates that workers pass before each check.
#![tactic(auto)]

mod calls;
mod gate;
mod table;
mod view;

pub use gate::{FreeGate, Gate, MeetGate};
pub use table::{ClaimSeat, Claims};
pub use view::ClaimView;
