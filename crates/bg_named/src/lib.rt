//! What a program that `bg_resolve::resolve` takes owes its types: laws that tie the rules of names to what is declared.
#![tactic(auto)]

pub mod laws;
