//! Blocks without loops and calls: what an implementation does, as commands over the pieces of the program.
#![tactic(auto)]

mod block;
mod branches;
mod callees;
mod emit;
mod jumps;
mod marks;
mod program;
mod sides;
mod simple;
mod stmts;

pub use block::{Block, Cmd, Exit, Kept};
pub use callees::callees_of;
pub use program::blocks;
