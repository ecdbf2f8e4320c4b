//! Blocks of forms and rows, cut down to what counts for one target. Atoms keep their numbers.
#![tactic(auto)]

mod counting;
mod cut;
mod guards;
pub mod laws;
mod marks;
mod noted;

pub use cut::sliced;
pub use noted::{Kept, what_counts};
