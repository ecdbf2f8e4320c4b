//! The key of a row.
ghost use Rattle.std.specs.Prelude.{◌≡◌, IfOk};
ghost use Rattle.bg_rows.specs.Rows.{row_of};
ghost use Rattle.bg_rows.specs.Keys.{key_of, pairs_of};

use crate::entry::Entry;
use crate::row::Row;
use std::alloc::{AllocError, Global};

/// A row as a key: its variables with their coefficients, and its bound.
pub type Key = (Vec<(u32, i128)>, i128);

/// The variables with their coefficients.
fn pairs(alloc: Global, entries: &[Entry]) -> Result<Vec<(u32, i128)>, AllocError>
    ensures { IfOk result (λ v. v.items ≡ pairs_of entries.now) }
{
    let mut made = Vec::new(alloc);
    for t in entries {
        made.push((t.variable, t.by))?;
    }
    Ok(made)
}

/// The key of a row. Only want of memory is an error.
pub fn key(alloc: Global, row: &Row) -> Result<Key, AllocError>
    ensures { IfOk result (λ k. (k.0.items, k.1) ≡ key_of (row_of row.now)) }
{
    let entries = pairs(alloc, &row.entries)?;
    Ok((entries, row.bound))
}
