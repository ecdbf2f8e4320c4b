//! Rows with the same entries, as one class.

use crate::ledger::Ledger;
use std::alloc::{AllocError, Global};

/// The nearest row of a class: its bound, and the number of the decision that it is of.
#[derive(Clone, Copy)]
pub struct Near {
    pub bound: i128,
    pub at: usize,
}

/// The rows that have the same entries once they are tightened: the class of those with the negated
/// entries, the variables, the nearest row that is decided, and the turn in which it was last reached.
#[derive(Drop)]
pub struct Class {
    pub opposite: Option<usize>,
    pub variables: Vec<u32>,
    pub nearest: Option<Near>,
    pub stamp: u64,
}

/// The entries with each coefficient negated; None where one leaves the range.
fn negated(alloc: Global, entries: &[(u32, i128)]) -> Result<Option<Vec<(u32, i128)>>, AllocError> {
    let mut made = Vec::new(alloc);
    for (variable, by) in entries {
        match by.checked_neg() {
            Some(other) => made.push((*variable, other))?,
            None => return Ok(None),
        }
    }
    Ok(Some(made))
}

/// The class of the negated entries, if there is one.
fn opposite_of(
    alloc: Global,
    ledger: &Ledger,
    entries: &[(u32, i128)],
) -> Result<Option<usize>, AllocError> {
    match negated(alloc, entries)? {
        Some(other) => Ok(ledger.ids.get(&other).copied()),
        None => Ok(None),
    }
}

/// Puts a class of these entries behind the others, and answers its number.
fn new_class(
    alloc: Global,
    ledger: &mut Ledger,
    entries: Vec<(u32, i128)>,
) -> Result<usize, AllocError> {
    let number = ledger.classes.len();
    let opposite = opposite_of(alloc, ledger, &entries)?;
    if let Some(other) = opposite {
        if let Some(class) = ledger.classes.get_mut(other) {
            class.opposite = Some(number);
        }
    }
    let mut variables = Vec::new(alloc);
    for (variable, _) in &entries {
        variables.push(*variable)?;
    }
    ledger.classes.push(Class {
        opposite,
        variables,
        nearest: None,
        stamp: 0,
    })?;
    ledger.ids.insert(entries, number)?;
    Ok(number)
}

/// The class of these entries, made where there was none. Takes time for the entries and for the
/// logarithm of the number of classes.
pub fn class_of(
    alloc: Global,
    ledger: &mut Ledger,
    entries: Vec<(u32, i128)>,
) -> Result<usize, AllocError> {
    if let Some(number) = ledger.ids.get(&entries) {
        return Ok(*number);
    }
    new_class(alloc, ledger, entries)
}
