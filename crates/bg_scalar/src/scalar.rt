//! Scalars.

/// A truth value, a whole number, or the element with a number of the user type that is declared with a number.
#[derive(Clone, Copy, PartialEq, Eq, PartialOrd, Ord, Debug)]
pub enum Scalar {
    Truth(bool),
    Number(i128),
    Element(u32, i128),
}
