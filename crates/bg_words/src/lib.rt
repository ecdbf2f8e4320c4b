//! The candidates of a run of Houdini, as sets of numbers, and the definitions of the machine that
//! workers over one shared set make: its states, its events and its history.
#![tactic(auto)]

mod copies;
mod machine;
mod set;
mod set_calls;

pub use machine::{Answer, CoreState, Decision, Entry, Event, Pass, Seen, Stage, Task, Worker};
pub use set::CandSet;
pub use set_calls::full_word;
