//! Linear forms of expressions over incarnations, exact or refused at the first operation that leaves the range, the rows of
//! relations, and the kinds of expressions.
#![tactic(auto)]

mod formed;
mod growing;
mod kinds;
pub mod laws;
mod leaf;
mod lin;
mod made;
mod relate;
mod scalar;
mod scaled;
mod sorted;
mod sum;
mod terms;

pub use formed::{linear, linear_of_chain};
pub use lin::Lin;
pub use relate::relation_of_chain;
pub use scalar::{Kind, Sort};
pub use sorted::{kind, kind_of_chain};
