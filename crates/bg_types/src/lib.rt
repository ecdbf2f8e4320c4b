//! Types: a program has a type everywhere, or its first fault says why not.
//!
//! `check_types` is what others rely on, with what its answer holds: `Typed`, `Refusal` and `TypeFault`, and of `bg_kinds`
//! `Fault`, `WantedType`, `ValueType` and its parts, and `push_type`, which writes a type as a fault's line does.
#![tactic(auto, using(bg_kinds::proofs::Firsts::first_of_append, bg_kinds::proofs::Firsts::is_none_append))]

mod checks;
pub mod examples;
mod programs;
mod tables;
mod verdict;

pub use verdict::{Refusal, TypeFault, Typed, check_types};
