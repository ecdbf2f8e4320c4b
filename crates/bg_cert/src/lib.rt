//! Certificates that a formula has no valuation: case trees, checked without search.
#![tactic(auto)]

mod cert;
mod check;
pub mod laws;
mod leaf;
mod lemma;
mod rows;
mod table;
mod tally;
mod tour;
mod trail;
mod units;
mod walk;
mod written;

pub use cert::{Cert, Decision, Named, Node, bare};
pub use check::accepts;
pub use leaf::{clause_false, names_false, unit_false};
pub use rows::{row_of_decision, rows_on};
pub use table::{rows_for, table_below};
pub use tally::Tally;
pub use tour::{Later, Tour, Turn, end_path, first_tour, wait};
pub use trail::{Trail, decide, decides, first_trail, undo_to};
pub use units::used;
pub use walk::{Waiting, Walk, close, first_walk, open_both};
pub use written::{Nodes, accepts_written};
