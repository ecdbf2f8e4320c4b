//! Why a call of the outside gave up.
ghost use Rattle.std.specs.Prelude.{◌≡◌};
ghost use Rattle.bg_io.specs.declared.errors.ReadError.TheVariants.{Memory};

use std::alloc::AllocError;
use thiserror::Error;

/// A call of the outside failed, and its fault was counted.
#[derive(Clone, Copy, Debug, Error)]
#[error("a call of the outside failed")]
pub struct Failed;

/// Why files could not be read as one text.
#[derive(Clone, Copy, PartialEq, Eq, Debug, Error)]
pub enum ReadError {
    /// The start of the file of this number, counted from 0, or a read of it, failed.
    #[error("file {file} could not be read")]
    ReadFault { file: usize },
    /// The text is longer than the limit; `bytes` is the limit and 1.
    #[error("the text has {bytes} bytes or more")]
    TooLong { bytes: u64 },
    /// There was no memory for the text.
    #[error("out of memory")]
    Memory,
}

impl From<AllocError> for ReadError {
    ghost from_gives = { λ _ e. e ≡ Memory };

    fn from(_e: AllocError) -> ReadError {
        ReadError::Memory
    }
}

/// The sink failed before it had taken all bytes.
#[derive(Clone, Copy, Debug, Error)]
#[error("the sink failed")]
pub struct WriteFault;
