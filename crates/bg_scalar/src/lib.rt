//! What expressions over truth values, whole numbers, elements of user types and maps, with functions on them, are worth, exactly, or the
//! first operation that leaves 128 bits. Maps are kept in normal form.
#![tactic(auto)]

mod brackets;
mod choice;
mod eval;
mod held;
mod joined;
mod keys;
pub mod laws;
mod map;
mod scalar;
mod table;
mod value;

pub use brackets::{inside, updated};
pub use choice::Choice;
pub use eval::{Sight, read, worth, worths};
pub use held::{Found, Lent, ListWorth, Worth, as_worth, owned, shown, truth};
pub use keys::is_before;
pub use map::{select, update};
pub use scalar::Scalar;
pub use table::{Table, told};
pub use value::{Entry, Value, copies, copy, is_same, same_scalar};
