//! How places and positions are written.
#![tactic(auto)]

mod place;
mod put;

pub use place::put_place;
pub use put::{put_number, put_position};
