//! Cycles of directed graphs: ranks along which every edge goes down, or the first node that reaches itself.
#![tactic(auto)]

mod graph;
pub mod laws;
mod marks;
mod order;
mod rings;
mod visit;

pub use graph::is_graph;
pub use order::{Order, order_of};
