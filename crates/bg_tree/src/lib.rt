//! The search for a certificate: it ends with a certificate, with a path that decides every atom,
//! makes nothing false and has a near point, or with a budget that is used up or an operation that
//! leaves 128 bits.
#![tactic(auto)]

mod book;
mod descent;
mod find;
pub mod laws;
mod outcome;
mod part;
mod settle;
mod step;
mod whole;

pub use book::{Book, Head};
pub use descent::{Descent, Turn, Values, follow};
pub use find::search;
pub use outcome::{Beyond, Budget, End, Halt, Leaf, Outcome, Why};
pub use part::{Kept, Part};
pub use step::Search;
