//! A conflict among the rows of a path, found from the nearest rows alone.
#![tactic(auto)]

mod class;
mod find;
mod ledger;
mod near;
mod note;
mod picked;
mod renumber;

pub use find::conflict;
pub use ledger::{Ledger, new_ledger};
