//! How large an implementation may be.

/// The most places that an implementation may have.
pub const MOST_PLACES: usize = 65_535;

/// The most expression nodes that an implementation may have, with the clauses of what it calls.
pub const MOST_EXPANDED: u32 = 1_000_000;
