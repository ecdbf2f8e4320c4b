//! What to do next at a path of a case tree, by what its clauses tell: close it, split an atom, or
//! nothing is left.
#![tactic(auto)]

mod guide;
mod hint;
mod index;
mod left;
mod look;
mod mark;
mod pick;
mod probe;
mod problem;
mod rows;

pub use guide::{Guide, first_guide, go_on, split};
pub use hint::Hint;
pub use index::{Index, index_of};
pub use left::Left;
pub use mark::Mark;
pub use pick::{Choice, Pick, fails, next_at};
pub use probe::{Probe, new_probe};
pub use problem::Problem;
