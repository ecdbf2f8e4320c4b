//! The certificate of an outcome, as its text has it.
#![tactic(auto)]

mod certificate;
mod found;
mod given;
pub mod laws;
mod names;
mod nodes;
mod sections;
mod values;

pub use certificate::certificate_text;
