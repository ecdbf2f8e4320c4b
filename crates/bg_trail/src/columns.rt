//! Columns: the sums of terms that the atoms' rows bound. Rows with the same entries, or opposite ones, share a column, so that an atom
//! is a bound of its column, and its denial the opposite bound, one further.

use crate::literals::{atom_of, is_positive};
use crate::span::{Span, items, span_of};
use bg_rows::{Entry, Row};
use bg_simplex::{Lit, Simplex, new_column, new_line};
use bg_solved::Reduced;
use std::alloc::{AllocError, Global};

/// That a column's sum is at most a number, or at least.
#[derive(Clone, Copy)]
pub struct Limit {
    pub column: u32,
    pub upper: bool,
    pub value: i128,
}

/// An atom of a column, and the bound that it says of it.
#[derive(Clone, Copy)]
pub struct Mark {
    pub atom: u32,
    pub upper: bool,
    pub value: i128,
}

/// By what a sum's number is mixed with each entry.
const MIX: usize = 0x9E37_79B9_7F4A_7C15;

/// Of each column the sum that it stands for, the atoms that bound it, and how many of these have no value. The column of each term
/// alone; those of longer sums are in chains, of those whose entries give one number: the first column of each chain, and behind each
/// column the next one. Of each atom what it says of its column. How rows were brought over the terms that stay, in the order in which
/// their atoms took their seats, and of each atom the place there. And whether a number left 128 bits on the way.
#[derive(Drop)]
pub struct Columns {
    pub entries: Vec<Entry>,
    pub forms: Vec<Span>,
    pub atoms: Vec<Vec<Mark>>,
    pub open: Vec<u32>,
    pub terms: Vec<Option<u32>>,
    pub chains: Vec<Option<u32>>,
    pub behind: Vec<Option<u32>>,
    pub limits: Vec<Option<Limit>>,
    pub reduced: Vec<Reduced>,
    pub of_atom: Vec<Option<u32>>,
    pub broken: bool,
}

/// No columns, with room for so many terms and atoms.
pub fn new_columns(alloc: Global, terms: u32, atoms: usize) -> Result<Columns, AllocError> {
    Ok(Columns {
        entries: Vec::new(alloc),
        forms: Vec::new(alloc),
        atoms: Vec::new(alloc),
        open: Vec::new(alloc),
        terms: vec![in alloc; None; terms as usize]?,
        chains: vec![in alloc; None; atoms.saturating_add(1)]?,
        behind: Vec::new(alloc),
        limits: vec![in alloc; None; atoms]?,
        reduced: Vec::new(alloc),
        of_atom: vec![in alloc; None; atoms]?,
        broken: false,
    })
}

/// Makes room for one atom more.
pub fn grow_columns(columns: &mut Columns) -> Result<(), AllocError> {
    columns.limits.push(None)?;
    columns.of_atom.push(None)?;
    Ok(())
}

/// A row as a bound of the sum whose first coefficient is positive: the row's entries, or, where `turned`, the opposite ones.
#[derive(Clone, Copy)]
pub struct Facing {
    pub turned: bool,
    pub value: i128,
}

/// The entries with each coefficient negated; None where one leaves 128 bits.
pub fn opposite(alloc: Global, entries: &[Entry]) -> Result<Option<Vec<Entry>>, AllocError> {
    let mut made = Vec::new(alloc);
    for t in entries {
        let Some(by) = t.by.checked_neg() else {
            return Ok(None);
        };
        made.push(Entry {
            variable: t.variable,
            by,
        })?;
    }
    Ok(Some(made))
}

/// A row as a bound, if it has entries and its bound's negation is within 128 bits.
pub fn face(row: &Row) -> Option<Facing> {
    let turned = row.entries.first()?.by < 0;
    let value = if turned {
        row.bound.checked_neg()?
    } else {
        row.bound
    };
    Some(Facing { turned, value })
}

/// The sum that a column stands for.
pub fn form_of(columns: &Columns, column: u32) -> &[Entry] {
    match columns.forms.get(column as usize) {
        Some(span) => items(&columns.entries, *span),
        None => &[],
    }
}

/// Notes the sum of a column that was made.
fn push_form(alloc: Global, columns: &mut Columns, form: &[Entry]) -> Result<(), AllocError> {
    let from = columns.entries.len();
    columns.entries.extend_from_slice(form)?;
    columns.forms.push(span_of(from, form.len()))?;
    columns.atoms.push(Vec::new(alloc))?;
    columns.open.push(0)?;
    columns.behind.push(None)?;
    Ok(())
}

/// The column of a term alone.
pub fn term_column(
    alloc: Global,
    columns: &mut Columns,
    simplex: &mut Simplex,
    x: u32,
) -> Result<u32, AllocError> {
    if let Some(Some(c)) = columns.terms.get(x as usize) {
        return Ok(*c);
    }
    let c = new_column(alloc, simplex)?;
    push_form(alloc, columns, &[Entry { variable: x, by: 1 }])?;
    if let Some(term) = columns.terms.get_mut(x as usize) {
        *term = Some(c);
    }
    Ok(c)
}

/// The sum over the columns of its terms.
fn over_columns(
    alloc: Global,
    columns: &mut Columns,
    simplex: &mut Simplex,
    form: &[Entry],
) -> Result<Vec<Entry>, AllocError> {
    let mut sum = Vec::with_capacity(alloc, form.len())?;
    for t in form {
        let variable = term_column(alloc, columns, simplex, t.variable)?;
        sum.push(Entry { variable, by: t.by })?;
    }
    Ok(sum)
}

/// A new column for a sum of several terms.
fn sum_column(
    alloc: Global,
    columns: &mut Columns,
    simplex: &mut Simplex,
    form: &[Entry],
) -> Result<u32, AllocError> {
    let sum = over_columns(alloc, columns, simplex, form)?;
    let c = new_line(alloc, simplex, &sum)?;
    push_form(alloc, columns, form)?;
    Ok(c)
}

/// The place of a sum's chain: the same for the opposite sum.
fn chain_of(columns: &Columns, form: &[Entry]) -> usize {
    let mut mixed: usize = 0;
    for t in form {
        let by = usize::try_from(t.by.unsigned_abs()).unwrap_or(0);
        mixed = (mixed ^ (t.variable as usize)).wrapping_mul(MIX) ^ by;
    }
    mixed.checked_rem(columns.chains.len()).unwrap_or(0)
}

/// Whether these are the entries of a sum, or, where `turned`, the opposite ones.
fn is_form(form: &[Entry], entries: &[Entry], turned: bool) -> bool {
    if form.len() != entries.len() {
        return false;
    }
    for i in 0..form.len() {
        if let (Some(t), Some(u)) = (form.get(i), entries.get(i)) {
            let is_same = if turned {
                t.by.checked_neg() == Some(u.by)
            } else {
                t.by == u.by
            };
            if t.variable != u.variable || !is_same {
                return false;
            }
        }
    }
    true
}

/// The column of a sum, or, where `turned`, of the opposite one, if there is one.
pub fn find_column(columns: &Columns, entries: &[Entry], turned: bool) -> Option<u32> {
    if let [t] = entries {
        return columns.terms.get(t.variable as usize).copied().flatten();
    }
    let place = chain_of(columns, entries);
    let mut at = columns.chains.get(place).copied().flatten();
    for _ in 0..columns.behind.len() {
        let c = at?;
        if is_form(form_of(columns, c), entries, turned) {
            return Some(c);
        }
        at = columns.behind.get(c as usize).copied().flatten();
    }
    None
}

/// Puts a column in front of its chain.
fn chain(columns: &mut Columns, c: u32, place: usize) {
    let Some(first) = columns.chains.get_mut(place) else {
        return;
    };
    let old = *first;
    *first = Some(c);
    if let Some(next) = columns.behind.get_mut(c as usize) {
        *next = old;
    }
}

/// A new column for a sum that has none, or, where `turned`, for the opposite one.
fn made_column(
    alloc: Global,
    columns: &mut Columns,
    simplex: &mut Simplex,
    entries: &[Entry],
    turned: bool,
) -> Result<u32, AllocError> {
    let c = if turned {
        let Some(form) = opposite(alloc, entries)? else {
            columns.broken = true;
            return sum_column(alloc, columns, simplex, entries);
        };
        sum_column(alloc, columns, simplex, &form)?
    } else {
        sum_column(alloc, columns, simplex, entries)?
    };
    let place = chain_of(columns, entries);
    chain(columns, c, place);
    Ok(c)
}

/// The column of a sum whose coefficients have no divisor in common, or, where `turned`, of the opposite one; the first coefficient of
/// the column's sum is positive. It is made where there was none.
pub fn column_of(
    alloc: Global,
    columns: &mut Columns,
    simplex: &mut Simplex,
    entries: &[Entry],
    turned: bool,
) -> Result<u32, AllocError> {
    if let [t] = entries {
        return term_column(alloc, columns, simplex, t.variable);
    }
    match find_column(columns, entries, turned) {
        Some(c) => Ok(c),
        None => made_column(alloc, columns, simplex, entries, turned),
    }
}

/// What a literal says of a column.
pub fn limit_of(columns: &Columns, l: Lit) -> Option<Limit> {
    let Some(Some(limit)) = columns.limits.get(atom_of(l)) else {
        return None;
    };
    if is_positive(l) {
        return Some(*limit);
    }
    let value = if limit.upper {
        limit.value.checked_add(1)?
    } else {
        limit.value.checked_sub(1)?
    };
    Some(Limit {
        column: limit.column,
        upper: !limit.upper,
        value,
    })
}

/// The value of an atom of a column, where a bound of the column holds, if it is known.
pub fn implied(upper: bool, value: i128, mark: Mark) -> Option<bool> {
    match (upper, mark.upper) {
        (true, true) => if_so(value <= mark.value, true),
        (true, false) => if_so(value < mark.value, false),
        (false, false) => if_so(value >= mark.value, true),
        (false, true) => if_so(value > mark.value, false),
    }
}

fn if_so(holds: bool, value: bool) -> Option<bool> {
    if holds { Some(value) } else { None }
}

/// Notes that an atom of a column has a value, or has none any more.
pub fn count_open(columns: &mut Columns, l: Lit, more: bool) {
    let Some(Some(limit)) = columns.limits.get(atom_of(l)) else {
        return;
    };
    let column = limit.column as usize;
    if let Some(n) = columns.open.get_mut(column) {
        *n = if more {
            n.saturating_add(1)
        } else {
            n.saturating_sub(1)
        };
    }
}

/// How many atoms a column has.
pub fn count_marks(columns: &Columns, column: u32) -> usize {
    match columns.atoms.get(column as usize) {
        Some(atoms) => atoms.len(),
        None => 0,
    }
}

/// An atom of a column, by its place there.
pub fn mark_at(columns: &Columns, column: u32, at: usize) -> Option<Mark> {
    match columns.atoms.get(column as usize) {
        Some(atoms) => atoms.get(at).copied(),
        None => None,
    }
}

/// How many atoms of a column have no value.
pub fn open_on(columns: &Columns, column: u32) -> u32 {
    match columns.open.get(column as usize) {
        Some(n) => *n,
        None => 0,
    }
}
