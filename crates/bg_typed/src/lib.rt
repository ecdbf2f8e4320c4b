//! What a program that `bg_types::check_types` takes means: laws that tie its definitions to those of a typed program.
#![tactic(auto)]

pub mod laws;
