//! The rows in which each variable stands.
ghost use Rattle.std.specs.Prelude.{◌≡◌, ◌<◌, ℕ, length, true, IfOk, OnOk, Some};
ghost use Rattle.std.specs.Ordering.{nat_cmp};
ghost use Rattle.std.specs.BTreeMap.{get};
ghost use Rattle.bg_rows.specs.Entries.{mentions};
ghost use Rattle.bg_elim.specs.Columns.{numbers_at, Keeps, Stands};
ghost use Rattle.bg_elim.specs.Kept.{is_in};

use crate::cost::{Sides, count, no_sides};
use crate::work::Stand;
use bg_rows::Row;
use std::alloc::{AllocError, Global};
use std::collections::BTreeMap;

/// Each variable's place, and at that place the numbers of the rows in which it stands, of those that came while an even number of
/// variables was done and of the others, in their order; and how many live rows bound it.
#[derive(Drop)]
pub struct Columns {
    pub places: BTreeMap<u32, usize>,
    pub even: Vec<Vec<usize>>,
    pub odd: Vec<Vec<usize>>,
    pub counts: Vec<Sides>,
}

/// When rows come: while an even number of variables is done, or an odd one.
#[derive(Clone, Copy)]
pub enum Turn {
    Even,
    Odd,
}

/// The turn where so many variables are done.
pub fn turn_of(done: usize) -> Turn {
    if done % 2 == 0 { Turn::Even } else { Turn::Odd }
}

/// The place of a variable, perhaps from now on.
fn place_for(
    places: &mut BTreeMap<u32, usize>,
    counts: &mut Vec<Sides>,
    x: u32,
) -> Result<usize, AllocError>
    ensures there { IfOk result (λ p. get nat_cmp places.new x ≡ Some p) }
    ensures keeps { OnOk result ((y q : ℕ) → get nat_cmp places.old y ≡ Some q → get nat_cmp places.new y ≡ Some q) }
{
    if let Some(p) = places.get(&x) {
        return Ok(*p);
    }
    let p = counts.len();
    counts.push(no_sides())?;
    places.insert(x, p)?;
    Ok(p)
}

/// The variables at their places in the list, and no rows.
pub fn columns_of(alloc: Global, variables: &[u32]) -> Result<Columns, AllocError> {
    let mut columns = Columns {
        places: BTreeMap::new(alloc),
        even: Vec::new(alloc),
        odd: Vec::new(alloc),
        counts: Vec::new(alloc),
    };
    for x in variables {
        place_for(&mut columns.places, &mut columns.counts, *x)?;
    }
    Ok(columns)
}

/// Empty lists behind those that are there, up to a place.
fn extend(alloc: Global, lists: &mut Vec<Vec<usize>>, p: usize) -> Result<(), AllocError>
    ensures keeps { OnOk result (Keeps lists.old.items lists.new.items) }
    ensures there { OnOk result (p < length lists.new.items) }
{
    while lists.len() <= p {
        lists.push(Vec::new(alloc))?;
    }
    Ok(())
}

/// One more number in the list at a place.
fn push_at(alloc: Global, lists: &mut Vec<Vec<usize>>, p: usize, n: usize) -> Result<(), AllocError>
    ensures keeps { OnOk result (Keeps lists.old.items lists.new.items) }
    ensures there { OnOk result (is_in n (numbers_at lists.new.items p) ≡ true) }
{
    extend(alloc, lists, p)?;
    lists[p].push(n)?;
    Ok(())
}

/// One more row of the variable at a place.
fn note(
    alloc: Global,
    columns: &mut Columns,
    p: usize,
    n: usize,
    turn: Turn,
) -> Result<(), AllocError>
    ensures keeps { OnOk result ((y m : ℕ) → Stands columns.old y m → Stands columns.new y m) }
    ensures there { OnOk result ((y : ℕ) → get nat_cmp columns.old.places y ≡ Some p → Stands columns.new y n) }
{
    match turn {
        Turn::Even => {
            push_at(alloc, &mut columns.even, p, n)?;
            Ok(())
        }
        Turn::Odd => {
            push_at(alloc, &mut columns.odd, p, n)?;
            Ok(())
        }
    }
}

/// Whether a row is counted: not where it takes the place of one of the same entries.
fn is_counted(stand: Stand) -> bool {
    match stand {
        Stand::Nearer(_) => false,
        _ => true,
    }
}

/// One more row that is to be paired: its number in the columns of its variables.
pub fn list_row(
    alloc: Global,
    columns: &mut Columns,
    row: &Row,
    n: usize,
    turn: Turn,
    stand: Stand,
) -> Result<(), AllocError>
    ensures keeps { OnOk result ((y m : ℕ) → Stands columns.old y m → Stands columns.new y m) }
    ensures there { OnOk result ((y : ℕ) → mentions y row.now.entries.items ≡ true → Stands columns.new y n) }
{
    let counted = is_counted(stand);
    for t in &row.entries {
        let p = place_for(&mut columns.places, &mut columns.counts, t.variable)?;
        note(alloc, columns, p, n, turn)?;
        count(&mut columns.counts, p, t, counted);
    }
    Ok(())
}

/// The list at a place; empty where there is none.
pub fn numbers_at(lists: &[Vec<usize>], p: usize) -> &[usize]
    ensures { result.now ≡ numbers_at lists.now p }
{
    match lists.get(p) {
        Some(row) => row.as_slice(),
        None => &[],
    }
}
