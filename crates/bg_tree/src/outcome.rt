//! What the search finds.
ghost use Rattle.std.specs.Prelude.{◌≡◌};
ghost use Rattle.bg_tree.specs.Ends.{outcome_of};

use crate::part::{Kept, Part};
use bg_cert::{Cert, Decision};
use bg_elim::{Further, Order};
use bg_point::{Far, Spot};
use bg_rows::Step;

/// How many nodes of a tree may count, and how many different rows an elimination may keep.
#[derive(Clone, Copy)]
pub struct Budget {
    pub nodes: u32,
    pub rows: u32,
}

/// A path that decides every atom and makes no clause and no unit of the set false, with an order
/// that solves its rows and a point near the targets that meets them.
#[derive(Drop)]
pub struct Leaf {
    pub path: Vec<Decision>,
    pub order: Order,
    pub spots: Vec<Spot>,
}

/// An operation that leaves 128 bits: of a further elimination on kept rows, or of the next value
/// of an order that solves the rows.
#[derive(Drop)]
pub enum Beyond {
    Elimination(Order, Further),
    Value(Order, Vec<Spot>, Far),
}

/// Why the search ends at a path that decides every atom.
#[derive(Drop)]
pub enum Halt {
    Point(Order, Vec<Spot>),
    Rows(Order),
    Range(Beyond),
}

/// What the rows of a path tell that decides every atom: a derivation of a false row, a gap between
/// two whole numbers, or that the search ends.
#[derive(Drop)]
pub enum End {
    Refuted(Vec<Step>),
    Split(Kept),
    Halted(Halt),
}

/// Why the search finds neither a certificate nor a complete leaf.
#[derive(Drop)]
pub enum Why {
    /// A tree with an open leaf, in which exactly the budget's number of nodes counts, or which has 20 times as many inner nodes;
    /// and the budget.
    Nodes(Vec<Part>, u32),
    /// A path that decides every atom and makes nothing false, of whose rows as many different ones
    /// were kept as the budget says.
    Rows(Vec<Decision>, Order),
    /// Such a path, with an operation on its rows that leaves 128 bits.
    Range(Vec<Decision>, Beyond),
}

/// What the search finds: a certificate, which the checker accepts; a complete leaf; or why neither
/// was found.
#[derive(Drop)]
pub enum Outcome {
    Closed(Cert),
    Leaf(Leaf),
    Unknown(Why),
}

/// The end of the search at a path.
pub fn outcome_of(path: Vec<Decision>, halt: Halt) -> Outcome
    ensures { result ≡ outcome_of path halt }
{
    match halt {
        Halt::Point(order, spots) => Outcome::Leaf(Leaf { path, order, spots }),
        Halt::Rows(order) => Outcome::Unknown(Why::Rows(path, order)),
        Halt::Range(beyond) => Outcome::Unknown(Why::Range(path, beyond)),
    }
}
