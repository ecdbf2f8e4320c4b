//! What is wrong with a program's names.
ghost use Rattle.std.specs.Prelude.{◌≡◌};
ghost use Rattle.bg_names.specs.declared.error.ResolveError.TheVariants.{Memory};

use bg_base::Pos;
use std::alloc::{AllocError, AllocFailed};

/// The rules that names have. Of two faults at one place the first in this list is answered.
#[derive(Clone, Copy)]
pub enum FaultKind {
    /// A use without a visible declaration.
    UnknownName,
    /// A second declaration in one space, or a variable that takes two values at once.
    Duplicate,
    /// An in-parameter, constant or candidate is changed.
    AssignsInput,
    /// A global is changed that the procedure's `modifies` lacks.
    NotModified,
    /// A jump goes to no label that stands ahead, or out of no block around it.
    BadTarget,
    /// A candidate stands elsewhere than before the outermost `==>` of a checked clause, or isn't declared `bool`.
    BadCandidateUse,
    /// `old` where there is no state before.
    BadOld,
    /// A function's body reaches the function.
    RecursiveFunction,
    /// An argument without a name, of a function that has a body.
    UnnamedArgument,
}

/// A broken rule, where, and the name that breaks it; no name where the rule has none.
#[derive(Drop)]
pub struct NameFault {
    pub kind: FaultKind,
    pub pos: Pos,
    pub name: Vec<u8>,
}

/// Why there is no resolved program.
#[derive(Drop)]
pub enum ResolveError {
    /// The first fault of the text.
    Fault(NameFault),
    /// Memory ran out, or numbers of 32 bits did.
    Memory,
}

impl From<AllocError> for ResolveError {
    ghost from_gives = { λ _ e. e ≡ Memory };

    fn from(_e: AllocError) -> ResolveError {
        ResolveError::Memory
    }
}

impl<T: Drop> From<AllocFailed<T>> for ResolveError {
    ghost from_gives = { λ _ e. e ≡ Memory };

    fn from(_e: AllocFailed<T>) -> ResolveError {
        ResolveError::Memory
    }
}
