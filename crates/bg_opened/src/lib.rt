//! Opened programs: without constants, axioms and bodies of functions; each run of one is a run of the program under an interpretation
//! that meets it.
#![tactic(auto)]

pub mod laws;
