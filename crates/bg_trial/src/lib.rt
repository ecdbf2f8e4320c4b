//! Trials of the shared set and of the claims: the worked examples, and workers in threads that run
//! a script. What starts no thread takes an allocator and no handle, so no call that it makes can
//! wait.
#![tactic(auto)]

mod examples;
mod machine;
mod script;
mod sitter;

pub use examples::{Older, chain, older_snapshot};
pub use machine::{last_task, older_events};
pub use script::{Worker, fresh_seat, left_by_script, script_drops};
pub use sitter::Sitter;

#[cfg(test)]
mod tests;
