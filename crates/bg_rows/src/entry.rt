//! Entries of rows.

/// A variable with its coefficient.
#[derive(Clone, Copy)]
pub struct Entry {
    pub variable: u32,
    pub by: i128,
}
