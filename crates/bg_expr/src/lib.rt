//! The expression at a place of a text, with each fault at its token.
//!
//! The signs between operands, those that bind least first: `<==>`; `==>` and `<==`, of which a chain has one kind; `&&` and
//! `||`, of which a chain has one kind; one relation, which does not group; `+` and `-`; `*`. Then the prefix signs `!` and
//! `-`, and the brackets behind an atom. Which way a chain groups is no matter of its tokens.
#![tactic(auto)]

mod laws;
mod parse;
mod public;
mod sign;

pub use laws::{
    answers_exclude_one_another, expressions_are_read_exactly, nodes_are_few,
    positions_are_the_tokens, there_is_one_reading, there_is_one_refusal,
};
pub use public::{expr, read_expr};
