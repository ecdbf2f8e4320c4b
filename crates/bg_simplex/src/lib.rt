//! A simplex over bounds, in the manner of Dutertre and de Moura (A fast linear-arithmetic solver for DPLL(T), 2006), without strict
//! bounds. A tableau has columns, each with a value and perhaps a lower and an upper bound, and lines, each of which says that its
//! basic column is a sum of columns that aren't basic. Columns that aren't basic stay within their bounds; pivots make the basic ones
//! do so too, or come to a line that shows why they can't. Numbers are fractions of whole numbers in 128 bits; where one leaves them
//! the tableau is broken, and tells nothing any more.
//!
//! What is found here is a proposal: who uses it adds the rows up. Proved is that each call is safe and ends.
#![tactic(auto)]

mod bound;
mod entering;
mod feasible;
mod fraction;
mod greatest;
mod implied;
mod line;
mod merge;
mod multiple;
mod numbers;
mod pivot;
mod ratio;
mod refute;
mod simplex;
mod sums;
mod tableau;
mod users;

pub use bound::{Bound, Lit};
pub use feasible::check;
pub use fraction::{
    Fraction, ceiling, floor, inverse, is_lost, is_whole, minus, negated, plus, times, whole,
};
pub use greatest::most;
pub use implied::{Told, explain, tell};
pub use multiple::{Multiple, common_multiple};
pub use simplex::{
    Simplex, high, is_broken, low, mark, new_column, new_line, new_simplex, set_bound, take_back,
    value,
};
