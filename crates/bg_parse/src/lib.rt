//! Programs read from tokens.
#![tactic(auto)]

mod constants;
mod decls;
mod functions;
mod laws;
mod procedures;
mod program;
mod tree;

pub use laws::{
    answers_exclude_one_another, each_node_has_a_token, there_is_one_refusal,
    tokens_spell_one_program,
};
pub use program::parse;
pub use tree::Tree;
