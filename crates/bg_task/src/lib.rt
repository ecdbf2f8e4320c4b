//! A place of a program over values as a task: what is made once of its implementation, what of that counts for
//! the place, and its clauses behind lines, which a certificate shows to have no solution. Nothing here searches.
#![tactic(auto)]

mod behind;
mod clauses;
mod cut;
mod equated;
mod flat;
mod growing;
mod kinds;
pub mod laws;
mod lining;
mod prepared;
mod question;
mod sorts;
mod targets;

pub use clauses::{Made, place_clauses};
pub use cut::{Cut, Whole, cut_down, forms_left};
pub use growing::{Grown, begun, grow};
pub use lining::{Lined, with_lines};
pub use prepared::{Prepared, count_candidates, prepare};
pub use question::Question;
