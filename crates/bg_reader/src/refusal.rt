//! Why tokens are refused.
ghost use Rattle.std.specs.Prelude.{◌≡◌};
ghost use Rattle.bg_reader.specs.declared.refusal.Refusal.TheVariants.{Memory};

use std::alloc::{AllocError, AllocFailed};

/// Why tokens are refused: at the first token with which nothing goes on, at the first bracket that is one too many
/// (each by its number, from 0 on; the number of all tokens is that of the end), or for want of memory.
#[derive(Clone, Copy, PartialEq, Eq, Debug)]
pub enum Refusal {
    Syntax(usize),
    TooDeep(usize),
    Memory,
}

impl From<AllocError> for Refusal {
    ghost from_gives = { λ _ e. e ≡ Memory };

    fn from(_e: AllocError) -> Refusal {
        Refusal::Memory
    }
}

impl<T: Drop> From<AllocFailed<T>> for Refusal {
    ghost from_gives = { λ _ e. e ≡ Memory };

    fn from(_e: AllocFailed<T>) -> Refusal {
        Refusal::Memory
    }
}
