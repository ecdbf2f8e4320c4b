//! Whether a program with constants, functions and axioms accepts the text of a certificate, checked without search: the constants'
//! values and the functions' tables are replayed through the axioms, and the opened program is asked for the rest.
#![tactic(auto)]

mod ending;
mod functions;
pub mod laws;
mod met;
mod names;
mod program;
mod signature;
mod tables;
mod text;
mod values;

pub use program::{Checked, check};
pub use signature::{Signature, read_signature};
pub use text::answer_text;
pub use values::{inside, type_at};
