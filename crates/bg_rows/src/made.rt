//! Rows copied, and false rows.
ghost use Rattle.std.specs.Prelude.{◌≡◌, IfOk};
ghost use Rattle.bg_rows.specs.Rows.{row_of, is_false};

use crate::row::Row;
use std::alloc::{AllocError, Global};

/// A copy of a row.
pub fn copy(alloc: Global, row: &Row) -> Result<Row, AllocError>
    ensures { IfOk result (λ r. row_of r ≡ row_of row.now) }
{
    let entries = row.entries.to_vec(alloc)?;
    let bound = row.bound;
    Ok(Row { entries, bound })
}

/// Whether the row has no entries and a bound below 0, so that no values meet it.
pub fn is_false(row: &Row) -> bool
    ensures { result ≡ is_false (row_of row.now) }
{
    row.entries.is_empty() && row.bound < 0
}
