//! The tokens of a text.
#![tactic(auto)]

mod byte;
mod comment;
mod error;
mod front;
pub mod laws;
mod lexer;
mod number;
mod place;
mod quote;
mod sign;
mod word;

pub use error::{Fault, LexError};
pub use lexer::{Tokens, lex};
