//! The rows of a certificate's own.
ghost use Rattle.std.specs.Prelude.{◌≡◌, ◌==◌, ◌||◌, ℕ, List, map, is_some, true, false, IfOk, ◌++◌, [], OnOk};
ghost use Rattle.bg_rows.specs.Rows.{RowOf, row_of};
ghost use Rattle.bg_rows.specs.Steps.{view_row, derives};
ghost use Rattle.bg_formula.specs.Atoms.{at, atom_of, view_linear};
ghost use Rattle.bg_formula.specs.Formulas.{entries_below, rows_below};
ghost use Rattle.bg_cert.specs.Paths.{row_of_atom, row_of_decision, in_front, rows_on};
ghost use Rattle.bg_cert.specs.Wanted.{is_path, is_named, names_row, AreInPlace};

use crate::cert::Decision;
use crate::rows::row_of_decision;
use bg_formula::{Atom, Linear};
use bg_rows::{Entry, Row, Step, copy};
use std::alloc::{AllocError, Global};

fn entries_below(terms: u32, entries: &[Entry]) -> bool
    ensures { result ≡ entries_below terms entries.now }
{
    for t in entries {
        if t.variable >= terms {
            return false;
        }
    }
    true
}

/// Whether each term of the table's rows is one of the first `terms`.
pub fn table_below(terms: u32, table: &[Linear]) -> bool
    ensures { result ≡ rows_below terms (map view_linear table.now) }
{
    for l in table {
        if !entries_below(terms, &l.row.entries) {
            return false;
        }
    }
    true
}

/// The row of the table, or its denial.
fn row_in_table(
    alloc: Global,
    table: &[Linear],
    r: usize,
    s: bool,
) -> Result<Option<Row>, AllocError>
    ensures { IfOk result (λ made. view_row made ≡ row_of_atom (at (map view_linear table.now) r) s) }
{
    if r < table.len() {
        if s {
            Ok(Some(copy(alloc, &table[r].row)?))
        } else {
            Ok(Some(copy(alloc, &table[r].denial)?))
        }
    } else {
        Ok(None)
    }
}

/// The row of a decision, if it has one, where the table's rows stand behind the atoms.
fn row_with_table(
    alloc: Global,
    atoms: &[Atom],
    table: &[Linear],
    d: &Decision,
) -> Result<Option<Row>, AllocError>
    ensures { IfOk result (λ made. view_row made ≡ row_of_decision (map atom_of atoms.now ++ map view_linear table.now) d.now) }
{
    match *d {
        Decision::Atom(a, s) => {
            if a < atoms.len() {
                row_of_decision(alloc, atoms, d)
            } else {
                row_in_table(alloc, table, a - atoms.len(), s)
            }
        }
        Decision::AtMost(_, _, _) => row_of_decision(alloc, atoms, d),
    }
}

/// Whether a decision has a row, where the table's rows stand behind the atoms.
fn has_row(atoms: &[Atom], table: &[Linear], d: &Decision) -> bool
    ensures { result ≡ is_some (row_of_decision (map atom_of atoms.now ++ map view_linear table.now) d.now) }
{
    match *d {
        Decision::Atom(a, _) => {
            if a < atoms.len() {
                match &atoms[a] {
                    Atom::Truth(_) => false,
                    Atom::Holds(_) => true,
                }
            } else {
                a - atoms.len() < table.len()
            }
        }
        Decision::AtMost(_, _, _) => true,
    }
}

/// Whether a row is named; those behind the marks are.
fn is_named(marks: &[bool], j: usize) -> bool
    ensures { result ≡ is_named marks.now j }
{
    match marks.get(j) {
        Some(yes) => *yes,
        None => true,
    }
}

/// Marks the row of a number.
fn mark(marks: &mut Vec<bool>, j: u128)
    ensures { (i : ℕ) → is_named marks.new.items i ≡ (is_named marks.old.items i || i == j) }
{
    if j < marks.len() as u128 {
        marks[j as usize] = true;
    }
}

/// Marks the row that a step names, if it names one.
fn mark_named(marks: &mut Vec<bool>, step: &Step)
    ensures { (i : ℕ) → is_named marks.new.items i ≡ (is_named marks.old.items i || is_path i step.now) }
{
    match *step {
        Step::Path(j) => mark(marks, j),
        Step::Sum(_, _, _, _) => {}
        Step::Tight(_) => {}
    }
}

/// Of so many rows those that steps name.
fn named_by(alloc: Global, count: usize, steps: &[Step]) -> Result<Vec<bool>, AllocError>
    ensures { IfOk result (λ marks. (j : ℕ) → names_row j steps.now ≡ true → is_named marks.items j ≡ true) }
{
    let mut marks = vec![in alloc; false; count]?;
    for step in steps {
        mark_named(&mut marks, step);
    }
    Ok(marks)
}

/// The row of a decision, if it has one; the row 0 <= 0 in its place where it isn't named.
fn row_if(
    alloc: Global,
    atoms: &[Atom],
    table: &[Linear],
    d: &Decision,
    named: bool,
) -> Result<Option<Row>, AllocError>
    ensures there { IfOk result (λ made. is_some (view_row made) ≡ is_some (row_of_decision (map atom_of atoms.now ++ map view_linear table.now) d.now)) }
    ensures same { IfOk result (λ made. named ≡ true → view_row made ≡ row_of_decision (map atom_of atoms.now ++ map view_linear table.now) d.now) }
{
    if named {
        return row_with_table(alloc, atoms, table, d);
    }
    if has_row(atoms, table, d) {
        Ok(Some(Row {
            entries: Vec::new(alloc),
            bound: 0,
        }))
    } else {
        Ok(None)
    }
}

/// A decision's row behind those made, if it has one.
fn push_row(
    alloc: Global,
    made: &mut Vec<Row>,
    atoms: &[Atom],
    table: &[Linear],
    d: &Decision,
    marks: &[bool],
) -> Result<(), AllocError>
    ensures { OnOk result ((rows : List RowOf) → AreInPlace marks.now (map row_of made.old.items) rows →
        AreInPlace marks.now (map row_of made.new.items) (rows ++ in_front (row_of_decision (map atom_of atoms.now ++ map view_linear table.now) d.now) [])) }
{
    let named = is_named(marks, made.len());
    if let Some(r) = row_if(alloc, atoms, table, d, named)? {
        made.push(r)?;
    }
    Ok(())
}

/// The rows of a path, in its order, where the table's rows stand behind the atoms; those that are named, and 0 <= 0 in the place of
/// each other one.
fn rows_marked(
    alloc: Global,
    atoms: &[Atom],
    table: &[Linear],
    decisions: &[Decision],
    marks: &[bool],
) -> Result<Vec<Row>, AllocError>
    ensures { IfOk result (λ v. AreInPlace marks.now (map row_of v.items) (rows_on (map atom_of atoms.now ++ map view_linear table.now) decisions.now)) }
{
    let mut made = Vec::with_capacity(alloc, decisions.len())?;
    for d in decisions {
        push_row(alloc, &mut made, atoms, table, d, marks)?;
    }
    Ok(made)
}

/// The rows of a path from which these steps derive the same as from all of them, where the table's rows stand behind the atoms. Only
/// rows that a step names are copied.
pub fn rows_for(
    alloc: Global,
    atoms: &[Atom],
    table: &[Linear],
    decisions: &[Decision],
    steps: &[Step],
) -> Result<Vec<Row>, AllocError>
    ensures { IfOk result (λ v. derives (map row_of v.items) [] false steps.now ≡ derives (rows_on (map atom_of atoms.now ++ map view_linear table.now) decisions.now) [] false steps.now) }
{
    let marks = named_by(alloc, decisions.len(), steps)?;
    rows_marked(alloc, atoms, table, decisions, &marks)
}
