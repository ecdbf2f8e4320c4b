//! Rows with their denials.
ghost use Rattle.bg_rows.specs.Rows.{row_of, Told};
ghost use Rattle.bg_formula.specs.Atoms.{view_linear, row_and_denial};

use crate::atom::Linear;
use bg_rows::{Refused, Row, deny};
use std::alloc::Global;

/// A row with its denial. Refused at the first operation of the denial that leaves the range.
pub fn deny_row(alloc: Global, row: Row) -> Result<Linear, Refused>
    ensures { Told view_linear result (row_and_denial (row_of row)) }
{
    let denial = deny(alloc, &row)?;
    Ok(Linear { row, denial })
}
