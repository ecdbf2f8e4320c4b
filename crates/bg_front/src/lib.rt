//! From the bytes of a text to its program, or to the one line that refuses it.
#![tactic(auto)]

mod faults;
pub mod laws;
mod limits;
mod lines;
mod refusal;
mod sizes;
mod text;
mod tree;

pub use limits::{MOST_BYTES, MOST_CANDIDATES, MOST_IMPLEMENTATIONS};
pub use refusal::{ReadError, Refusal};
pub use text::{Written, read_program, read_text};
pub use tree::{Read, tree_of};
