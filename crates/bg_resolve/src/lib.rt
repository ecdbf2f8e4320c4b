//! Names become numbers: what each name of a program means, or the first fault.
//!
//! [`resolve`] with [`ResolveError`], [`NameFault`] and [`FaultKind`] is the whole contract for other crates; `bg_names`, `bg_bodies`
//! and `bg_spaces` are its layers, and nobody else uses them.
#![tactic(auto)]

mod calls;
mod code;
mod functions;
mod kinds;
pub mod laws;
mod procedures;
mod program;
mod recursion;
mod whole;

pub use bg_names::error::{FaultKind, NameFault, ResolveError};
pub use whole::resolve;
