//! What is printed is read again as the same tree, positions apart.
#![tactic(auto)]

mod laws;

pub use laws::{
    positions_alone_are_forgotten, printed_text_gives_the_tree, twins_differ_in_positions_alone,
};
