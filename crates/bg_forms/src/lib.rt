//! Formulas over truth values as forms: conjunctions, denials, and pairs that are worth the same.
#![tactic(auto)]

mod copies;
mod form;
mod formed;
pub mod laws;
mod worth;

pub use copies::copy;
pub use form::{Form, Parts, any_of, both_of, denied, is_true, opposite, same_of};
pub use formed::form_ex;
pub use worth::is_worth;
