//! Steps of derivations.

/// A step of a derivation: a row of the path, a sum of multiples of two earlier rows, or an
/// earlier one tightened. Its numbers are any that fit in 128 bits.
#[derive(Clone, Copy)]
pub enum Step {
    /// Row J of the path, from 0.
    Path(u128),
    /// `Sum(r, p, s, q)` is p times row r and q times row s.
    Sum(u128, i128, u128, i128),
    /// Row r, tightened.
    Tight(u128),
}
