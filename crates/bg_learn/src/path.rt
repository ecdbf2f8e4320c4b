//! The path that a certificate's writer stands on, and the numbers of its rows.

use bg_formula::{Atom, Clauses};
use bg_simplex::Lit;
use bg_trail::atom_of;
use std::alloc::{AllocError, Global};

/// The literals that the path decides, in their order, and of each literal whether it is one of these; of each literal on it that has a
/// row the number of that row, and how many rows there are.
#[derive(Drop)]
pub struct Path {
    pub literals: Vec<Lit>,
    pub decided: Vec<bool>,
    pub row_of: Vec<u128>,
    pub rows: u128,
}

/// The path of no decisions, over so many atoms.
pub fn new_path(alloc: Global, atoms: usize) -> Result<Path, AllocError> {
    Ok(Path {
        literals: Vec::new(alloc),
        decided: vec![in alloc; false; atoms.saturating_mul(2)]?,
        row_of: vec![in alloc; u128::MAX; atoms.saturating_mul(2)]?,
        rows: 0,
    })
}

/// Whether a literal's atom has a row: one of the formula's with it, or one behind them, of the table.
fn has_row(f: &Clauses, l: Lit) -> bool {
    !matches!(f.atoms.get(atom_of(l)), Some(Atom::Truth(_)))
}

/// Says whether the path decides a literal.
fn put_decided(path: &mut Path, l: Lit, yes: bool) {
    if let Some(is_decided) = path.decided.get_mut(l as usize) {
        *is_decided = yes;
    }
}

/// Whether the path decides a literal.
pub fn is_decided(path: &Path, l: Lit) -> bool {
    matches!(path.decided.get(l as usize), Some(true))
}

/// Puts a literal behind those of the path.
pub fn walk(f: &Clauses, path: &mut Path, l: Lit) -> Result<(), AllocError> {
    path.literals.push(l)?;
    put_decided(path, l, true);
    if has_row(f, l) {
        let number = path.rows;
        path.rows = number.saturating_add(1);
        if let Some(row) = path.row_of.get_mut(l as usize) {
            *row = number;
        }
    }
    Ok(())
}

/// Goes back to the first so many literals.
pub fn walk_back(f: &Clauses, path: &mut Path, depth: usize) {
    for _ in depth..path.literals.len() {
        if let Some(l) = path.literals.pop() {
            put_decided(path, l, false);
            if has_row(f, l) {
                path.rows = path.rows.saturating_sub(1);
            }
        }
    }
}

/// The number of a literal's row among those of the path.
pub fn row_number(path: &Path, l: Lit) -> u128 {
    match path.row_of.get(l as usize) {
        Some(number) => *number,
        None => u128::MAX,
    }
}
