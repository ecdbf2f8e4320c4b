//! Multiples and sums of rows.
ghost use Rattle.std.specs.Prelude.{◌≡◌, ◌++◌, ◌∷◌, [], pos, true, Ok, ◌≤ℤ◌};
ghost use Rattle.bg_base.specs.Exact.{sum_of, product_of};
ghost use Rattle.bg_rows.specs.Entries.{rising};
ghost use Rattle.bg_rows.specs.Rows.{row_of, Told, multiples, times, merged, plus, combined, negations, denied, after, put, and_then};

use crate::entry::Entry;
use crate::refused::Refused;
use crate::row::Row;
use bg_base::{add, mul, neg, sub};
use std::alloc::Global;

/// An entry behind those made, unless it is zero.
fn push_entry(made: &mut Vec<Entry>, variable: u32, by: i128) -> Result<(), Refused>
    ensures { Told (λ _. made.new.items) result (Ok (made.old.items ++ put variable by [])) }
{
    if by != 0 {
        made.push(Entry { variable, by })?;
    }
    Ok(())
}

/// k times an entry, behind those made.
fn push_multiple(made: &mut Vec<Entry>, k: i128, t: &Entry) -> Result<(), Refused>
    ensures { Told (λ _. made.new.items) result (after made.old.items (multiples k (t.now ∷ []))) }
{
    let c = mul(k, t.by)?;
    push_entry(made, t.variable, c)
}

/// k times each coefficient.
fn multiples(alloc: Global, k: i128, entries: &[Entry]) -> Result<Vec<Entry>, Refused>
    ensures { Told (λ v. v.items) result (multiples k entries.now) }
{
    let mut made = Vec::with_capacity(alloc, entries.len())?;
    for t in entries {
        push_multiple(&mut made, k, t)?;
    }
    Ok(made)
}

/// k times a row.
#[tactic(auto, using(crate::proofs::Normal::multiples_stay))]
fn times(alloc: Global, k: i128, row: &Row) -> Result<Row, Refused>
    ensures { Told row_of result (times k (row_of row.now)) }
{
    let entries = multiples(alloc, k, &row.entries)?;
    let bound = mul(k, row.bound)?;
    Ok(Row { entries, bound })
}

/// The sum of two entries of one variable, behind those made.
fn push_sum(made: &mut Vec<Entry>, t: &Entry, u: &Entry) -> Result<(), Refused>
    ensures { Told (λ _. made.new.items) result (and_then (sum_of t.now.by u.now.by) (λ c. Ok (made.old.items ++ put t.now.variable c []))) }
{
    let c = add(t.by, u.by)?;
    push_entry(made, t.variable, c)
}

/// The sums of the coefficients, by variable number.
#[tactic(auto, using(crate::proofs::Steps::lower_left, crate::proofs::Steps::lower_right, crate::proofs::Steps::same_left, crate::proofs::Steps::same_stop, crate::proofs::Steps::rest_is))]
fn merged(alloc: Global, a: &[Entry], b: &[Entry]) -> Result<Vec<Entry>, Refused>
    ensures { Told (λ v. v.items) result (merged a.now b.now) }
{
    let mut made = Vec::with_capacity(alloc, a.len().saturating_add(b.len()))?;
    let mut i = 0;
    let mut j = 0;
    while i < a.len() && j < b.len() {
        let t = &a[i];
        let u = &b[j];
        if t.variable < u.variable {
            made.push(*t)?;
            i += 1;
        } else if u.variable < t.variable {
            made.push(*u)?;
            j += 1;
        } else {
            push_sum(&mut made, t, u)?;
            i += 1;
            j += 1;
        }
    }
    made.extend_from_slice(&a[i..])?;
    made.extend_from_slice(&b[j..])?;
    Ok(made)
}

/// The sum of two rows.
#[tactic(auto, using(crate::proofs::Normal::merged_stay))]
fn plus(alloc: Global, a: &Row, b: &Row) -> Result<Row, Refused>
    ensures { Told row_of result (plus (row_of a.now) (row_of b.now)) }
{
    let entries = merged(alloc, &a.entries, &b.entries)?;
    let bound = add(a.bound, b.bound)?;
    Ok(Row { entries, bound })
}

/// One times a number is the number: nothing is left to do.
fn number_once(by: i128)
    ensures { product_of (pos 1) by ≡ Ok by }
{}

/// The same of a coefficient.
fn entry_once(t: &Entry)
    ensures { product_of (pos 1) t.now.by ≡ Ok t.now.by }
{
    number_once(t.by);
}

/// The same of entries, which are read for no other reason.
fn entries_once(entries: &[Entry])
    requires { rising 0 entries.now ≡ true }
    ensures { multiples (pos 1) entries.now ≡ Ok entries.now }
{
    for t in entries {
        entry_once(t);
    }
}

/// The same of a row.
fn row_once(row: &Row)
    ensures { times (pos 1) (row_of row.now) ≡ Ok (row_of row.now) }
{
    entries_once(&row.entries);
    number_once(row.bound);
}

/// A row and a multiple of another. Once that one needs no copy.
fn plus_multiple(alloc: Global, x: &Row, b: &Row, k: i128) -> Result<Row, Refused>
    ensures { Told row_of result (and_then (times k (row_of b.now)) (λ y. plus (row_of x.now) y)) }
{
    if k == 1 {
        row_once(b);
        return plus(alloc, x, b);
    }
    let y = times(alloc, k, b)?;
    plus(alloc, x, &y)
}

/// The sum of two multiples. Refused at the first operation that leaves the range.
pub fn combine(alloc: Global, a: &Row, k1: i128, b: &Row, k2: i128) -> Result<Row, Refused>
    requires low { pos 0 ≤ℤ k1 }
    requires low2 { pos 0 ≤ℤ k2 }
    ensures { Told row_of result (combined (row_of a.now) k1 (row_of b.now) k2) }
{
    if k1 == 1 {
        row_once(a);
        return plus_multiple(alloc, a, b, k2);
    }
    let x = times(alloc, k1, a)?;
    plus_multiple(alloc, &x, b, k2)
}

/// A negated entry, behind those made.
fn push_negation(made: &mut Vec<Entry>, t: &Entry) -> Result<(), Refused>
    ensures { Told (λ _. made.new.items) result (after made.old.items (negations (t.now ∷ []))) }
{
    let by = neg(t.by)?;
    made.push(Entry {
        variable: t.variable,
        by,
    })?;
    Ok(())
}

/// Each coefficient negated.
fn negations(alloc: Global, entries: &[Entry]) -> Result<Vec<Entry>, Refused>
    ensures { Told (λ v. v.items) result (negations entries.now) }
{
    let mut made = Vec::with_capacity(alloc, entries.len())?;
    for t in entries {
        push_negation(&mut made, t)?;
    }
    Ok(made)
}

/// The row that holds exactly where this one does not. Refused at the first operation that leaves
/// the range.
#[tactic(auto, using(crate::proofs::Normal::negations_stay))]
pub fn deny(alloc: Global, row: &Row) -> Result<Row, Refused>
    ensures { Told row_of result (denied (row_of row.now)) }
{
    let entries = negations(alloc, &row.entries)?;
    let bound = sub(-1, row.bound)?;
    Ok(Row { entries, bound })
}
