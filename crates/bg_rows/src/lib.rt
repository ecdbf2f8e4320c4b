//! Rows `sum a_i x_i <= c` over whole numbers, and what follows from them.
#![tactic(auto)]

mod derive;
mod entry;
pub mod keys;
pub mod laws;
mod made;
mod refused;
mod row;
mod row_key;
mod step;
mod sums;
mod tight;

pub use derive::derives;
pub use entry::Entry;
pub use made::{copy, is_false};
pub use refused::Refused;
pub use row::Row;
pub use row_key::{Key, key};
pub use step::Step;
pub use sums::{combine, deny};
pub use tight::{
    Eliminated, are_opposite, coefficient, common_divisor, eliminate, eliminate_by, tighten,
};
