//! Atoms of candidates.
ghost use Rattle.std.specs.Prelude.{◌≡◌, ◌+◌, IfOk};
ghost use Rattle.bg_clause.specs.Tables.{table, marked};

use crate::naming::take_next;
use std::alloc::{AllocError, Global};

/// For each candidate its atom, if it has one, and the next free number of an atom.
#[derive(Drop)]
pub struct Tabled {
    pub units: Vec<Option<u32>>,
    pub next: u32,
}

/// The candidates that are named have one atom each, in order, from `first` on. 2^32 atoms count as want of memory.
pub fn table(alloc: Global, first: u32, named: &[bool]) -> Result<Tabled, AllocError>
    ensures units { IfOk result (λ made. made.units.items ≡ table first named.now) }
    ensures next { IfOk result (λ made. made.next ≡ first + marked named.now) }
{
    let mut units = Vec::with_capacity(alloc, named.len())?;
    let mut next = first;
    for is_named in named {
        if *is_named {
            units.push_reserved(Some(take_next(&mut next)?));
        } else {
            units.push_reserved(None);
        }
    }
    Ok(Tabled { units, next })
}
