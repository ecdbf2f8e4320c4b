//! Why a text is no certificate's.
ghost use Rattle.std.specs.Prelude.{◌≡◌};
ghost use Rattle.bg_certtext.specs.declared.error.ReadError.TheVariants.{Memory};

use std::alloc::AllocError;
use thiserror::Error;

/// Why a text was not read.
#[derive(Clone, Copy, PartialEq, Eq, Debug, Error)]
pub enum ReadError {
    /// The first line is that of another version.
    #[error("another version")]
    Version,
    /// This line, counted from 1, is the first that is against the grammar, or that is missing.
    #[error("line {0} is against the grammar")]
    BadLine(usize),
    /// Memory ran out.
    #[error("out of memory")]
    Memory,
}

impl From<AllocError> for ReadError {
    ghost from_gives = { λ _ e. e ≡ Memory };

    fn from(_e: AllocError) -> ReadError {
        ReadError::Memory
    }
}
