//! Leaves.

/// An expression that is one number, one truth value, or the read of one incarnation or term.
#[derive(Clone, Copy, PartialEq, Eq, PartialOrd, Ord, Debug)]
pub enum Leaf {
    Number(i128),
    Truth(bool),
    Read(u32),
}
