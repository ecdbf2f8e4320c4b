//! Why no row was made.

use bg_base::OutOfRange;
use std::alloc::{AllocError, AllocFailed};

/// Why no row was made: an operation left the range, or memory ran out.
#[derive(Drop)]
pub enum Refused {
    Range(OutOfRange),
    Memory,
}

impl From<AllocError> for Refused {
    ghost use Rattle.std.specs.Prelude.{◌≡◌};
    ghost use Rattle.bg_rows.specs.declared.refused.Refused.TheVariants.{Memory};

    ghost from_gives = { λ e r. r ≡ Memory };

    fn from(_error: AllocError) -> Refused {
        Refused::Memory
    }
}

impl From<OutOfRange> for Refused {
    ghost use Rattle.std.specs.Prelude.{◌≡◌};
    ghost use Rattle.bg_rows.specs.declared.refused.Refused.TheVariants.{Range};

    ghost from_gives = { λ e r. r ≡ Range e };

    fn from(error: OutOfRange) -> Refused {
        Refused::Range(error)
    }
}

impl<T: Drop> From<AllocFailed<T>> for Refused {
    ghost use Rattle.std.specs.Prelude.{◌≡◌};
    ghost use Rattle.bg_rows.specs.declared.refused.Refused.TheVariants.{Memory};

    ghost from_gives = { λ e r. r ≡ Memory };

    fn from(_error: AllocFailed<T>) -> Refused {
        Refused::Memory
    }
}
