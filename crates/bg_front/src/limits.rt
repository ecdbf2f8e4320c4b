//! How large a text may be.

/// The most bytes that a text may have.
pub const MOST_BYTES: u64 = 4_194_304;

/// The most implementations that a program may have.
pub const MOST_IMPLEMENTATIONS: usize = 10_000;

/// The most candidates that a program may have.
pub const MOST_CANDIDATES: usize = 4_096;

/// The most bodies that may stand in one chain of functions, each applied in the body of the next.
pub const MOST_BODIES: usize = 16;
