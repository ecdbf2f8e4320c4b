//! What is wanted at a leaf whose terms are applications, selects and updates: instances that are false there, and what lines have to bring
//! for them; and the values behind the scalars of a leaf that is finished.
#![tactic(auto)]

mod behind;
mod chased;
mod class;
mod false_here;
mod first;
mod guessed;
mod hints;
pub mod laws;
mod looked;
mod maps;
mod named;
mod names;
mod pairs;
mod paths;
mod reads;
mod row;
mod rows;
mod tables;
mod updates;
mod wanted;
mod wants;
mod way;

pub use class::Class;
pub use hints::Hints;
pub use looked::{Looked, Update};
pub use pairs::equal_by;
pub use reads::read_by;
pub use row::{One, Row, Rows};
pub use tables::{built, built_map, default_value};
pub use wanted::{Wanted, lines_wanted};
