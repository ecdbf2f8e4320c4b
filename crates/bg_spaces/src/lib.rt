//! The spaces of a program: what each name is declared as.
//!
//! A layer of `bg_resolve`, which has the public contract: use `bg_resolve::resolve`.
#![tactic(auto)]

pub mod entries;
pub mod groups;
pub mod modifies;
pub mod signatures;
pub mod space;
pub mod tables;
pub mod values;
