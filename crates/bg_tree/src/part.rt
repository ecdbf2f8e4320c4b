//! Trees that are not finished.

use bg_cert::Node;
use bg_elim::Order;
use bg_point::{Gap, Spot};

/// What is kept at a node that splits a bound: an order that solves the path's rows, near values of
/// its last variables, and the gap between two whole numbers at the variable before them.
#[derive(Drop)]
pub struct Kept {
    pub order: Order,
    pub spots: Vec<Spot>,
    pub gap: Gap,
}

/// A part of a tree that is not finished: an open leaf, a node that keeps nothing, or a node that
/// splits the bound at a gap.
#[derive(Drop)]
pub enum Part {
    Open,
    Plain(Node),
    Bound(Kept),
}
