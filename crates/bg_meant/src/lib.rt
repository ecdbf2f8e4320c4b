//! What names mean, one rule a form: declarations mean a program exactly where they have no fault of names; its clauses, calls, loops
//! and conditionals then have numbers of their own.
#![tactic(auto)]

pub mod laws;
