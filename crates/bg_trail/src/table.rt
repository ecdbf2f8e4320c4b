//! The rows that a certificate brings along: bounds and equalities that the search asks for, each of them an atom behind those of the
//! formula.

use bg_formula::Linear;
use bg_rows::{Key, Row, key};
use std::alloc::{AllocError, Global};
use std::collections::BTreeMap;

/// The rows with their denials, and the number of each by its entries and its bound.
#[derive(Drop)]
pub struct Table {
    pub rows: Vec<Linear>,
    pub ids: BTreeMap<Key, u32>,
}

/// The table without rows.
pub fn new_table(alloc: Global) -> Table {
    Table {
        rows: Vec::new(alloc),
        ids: BTreeMap::new(alloc),
    }
}

/// The number of a row, if the table has it.
pub fn row_number(alloc: Global, table: &Table, row: &Row) -> Result<Option<u32>, AllocError> {
    let k = key(alloc, row)?;
    Ok(table.ids.get(&k).copied())
}

/// Puts a row, with its denial, behind the others, and answers its number.
pub fn push_row(alloc: Global, table: &mut Table, both: Linear) -> Result<u32, AllocError> {
    let r = u32::try_from(table.rows.len()).unwrap_or(u32::MAX);
    table.ids.insert(key(alloc, &both.row)?, r)?;
    table.rows.push(both)?;
    Ok(r)
}
