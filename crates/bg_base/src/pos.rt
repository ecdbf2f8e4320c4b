//! Positions in a text.

/// A place in the joined text: line and column count from 1, columns in bytes.
#[derive(Clone, Copy, PartialEq, Eq, Debug)]
pub struct Pos {
    pub line: u32,
    pub column: u32,
}
