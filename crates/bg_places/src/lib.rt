//! The places of a program: each check of each implementation, in the order of the text. And how large implementations are: their
//! places, and expression nodes with the clauses of what is called.
#![tactic(auto)]

mod checks;
mod clauses;
mod crowded;
mod expanded;
pub mod laws;
mod limits;
mod nodes;
mod place;
mod program;
mod sized;
mod stmts;

pub use crowded::first_crowded;
pub use expanded::is_any_too_large;
pub use limits::{MOST_EXPANDED, MOST_PLACES};
pub use place::{Group, Place, Spot, spot_at};
pub use program::{places, places_of};
