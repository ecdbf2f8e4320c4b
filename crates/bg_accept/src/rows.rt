//! The rows of a section's table, with their denials.
ghost use Rattle.std.specs.Prelude.{◌≡◌, ◌++◌, ◌∷◌, [], IfOk, OnOk, IsTrue, map, true};
ghost use Rattle.std.specs.List.{list_all};
ghost use Rattle.bg_rows.specs.Rows as rows;
ghost use Rattle.bg_certtext.specs.Views.{row_of};
ghost use Rattle.bg_certtext.specs.Spellable.{are_terms, is_row};
ghost use Rattle.bg_accept.specs.Made.{entry_of, AreEntries, IsRowMade, IsAtom, IsTable};

use bg_certtext::{Term, TextRow};
use bg_formula::{Linear, deny_row};
use bg_rows::{Entry, Refused, Row};
use std::alloc::{AllocError, Global};

/// The entries of a row, where each of its terms is one of the first `terms`.
fn entries_of(alloc: Global, terms: u32, row: &[Term]) -> Result<Option<Vec<Entry>>, AllocError>
    ensures { IfOk result (AreEntries terms row.now) }
{
    let mut made = Vec::new(alloc);
    for t in row {
        if t.term >= terms as u128 {
            return Ok(None);
        }
        made.push(Entry {
            variable: t.term as u32,
            by: t.by,
        })?;
    }
    Ok(Some(made))
}

/// A row, where each of its terms is one of the first `terms`.
fn row_of(alloc: Global, terms: u32, row: &TextRow) -> Result<Option<Row>, AllocError>
    requires spelled { is_row (row_of row.now) ≡ true }
    ensures { IfOk result (IsRowMade terms (row_of row.now)) }
{
    match entries_of(alloc, terms, &row.terms)? {
        None => Ok(None),
        Some(entries) => Ok(Some(Row {
            entries,
            bound: row.bound,
        })),
    }
}

/// A row with its denial, where there is one and each term is one of the first `terms`.
fn atom_of(alloc: Global, terms: u32, row: &TextRow) -> Result<Option<Linear>, AllocError>
    requires spelled { is_row (row_of row.now) ≡ true }
    ensures { IfOk result (IsAtom terms (row_of row.now)) }
{
    let Some(row) = row_of(alloc, terms, row)? else {
        return Ok(None);
    };
    match deny_row(alloc, row) {
        Ok(atom) => Ok(Some(atom)),
        Err(Refused::Range(_)) => Ok(None),
        Err(Refused::Memory) => Err(AllocError),
    }
}

/// The rows with their denials, where these are there and each term is one of the first `terms`.
pub fn table_of(
    alloc: Global,
    terms: u32,
    table: &[TextRow],
) -> Result<Option<Vec<Linear>>, AllocError>
    requires rows { list_all is_row (map row_of table.now) ≡ true }
    ensures { IfOk result (IsTable terms (map row_of table.now)) }
{
    let mut made = Vec::new(alloc);
    for row in table {
        match atom_of(alloc, terms, row)? {
            None => return Ok(None),
            Some(atom) => made.push(atom)?,
        }
    }
    Ok(Some(made))
}
