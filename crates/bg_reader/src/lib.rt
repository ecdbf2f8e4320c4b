//! Readers of tokens, with one token of sight.
//!
//! A grammar is read by a function that is put together of a few (`specs/Reading.antt`): a token, a part and then another,
//! a branch on the next token, parts in a row. Each of them keeps exactness (`specs/Exact.antt`, `proofs/Good.antt`): what
//! is answered is so, and it is decided by the tokens read and one token more. So what is refused is refused at the first
//! token with which no text goes on, whatever the grammar (`specs/Told.antt`, `proofs/Told.antt`).
#![tactic(auto)]

mod next;
mod refusal;
mod same;

pub use next::{after_kind, after_text, expect_kind, expect_text, first, within};
pub use refusal::Refusal;
pub use same::is_kind;
