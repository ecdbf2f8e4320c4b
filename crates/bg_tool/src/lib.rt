//! The top call: from the words of a command line to a report and a status.
#![tactic(auto)]

mod asked;
mod certificates;
mod driver;
mod judge;
pub mod laws;
mod load;
mod made;
mod manner;
mod outcome;
mod report;
mod reports;

pub use driver::run;
