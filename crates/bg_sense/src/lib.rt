//! What programs mean: runs, places and claims, as definitions; and their laws, as contracts of functions without a body.
#![tactic(auto)]

pub mod examples;
pub mod functions;
pub mod laws;
pub mod resolved;
pub mod values;
