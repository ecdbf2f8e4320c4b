//! Rows divided by what their coefficients share, and variables eliminated.
ghost use Rattle.std.specs.Prelude.{◌≡◌, ◌<◌, ◌≤◌, ◌≤ℤ◌, ◌^◌, ◌++◌, ◌∷◌, [], pos, IsTrue, Ok, IfOk, OnOk, unsigned_abs};
ghost use Rattle.bg_base.specs.Exact.{gcd_of};
ghost use Rattle.bg_rows.specs.Entries.{coefficient};
ghost use Rattle.bg_rows.specs.Rows.{row_of, Told, combined, gcd_from, divided, tightened, multiplier, eliminated, opposite};

use crate::entry::Entry;
use crate::refused::Refused;
use crate::row::Row;
use crate::sums::combine;
use bg_base::{OutOfRange, floor_div, gcd, neg};
use std::alloc::{AllocError, Global};

/// The greatest common divisor of the coefficients; 0 where there are none.
pub fn common_divisor(entries: &[Entry]) -> u128
    ensures { result ≡ gcd_from 0 entries.now }
{
    let mut g = 0;
    for t in entries {
        g = gcd(g, t.by.unsigned_abs());
    }
    g
}

/// An entry with its coefficient divided, rounded down, behind those made.
fn push_quotient(made: &mut Vec<Entry>, g: u128, t: &Entry) -> Result<(), AllocError>
    requires { 0 < g }
    ensures { OnOk result (made.new.items ≡ made.old.items ++ divided g (t.now ∷ [])) }
{
    let by = floor_div(t.by, g);
    made.push(Entry {
        variable: t.variable,
        by,
    })?;
    Ok(())
}

/// Each coefficient divided, rounded down.
fn divided(alloc: Global, g: u128, entries: &[Entry]) -> Result<Vec<Entry>, AllocError>
    requires { 0 < g }
    ensures { IfOk result (λ v. v.items ≡ divided g entries.now) }
{
    let mut made = Vec::new(alloc);
    for t in entries {
        push_quotient(&mut made, g, t)?;
    }
    Ok(made)
}

/// The row divided by what its coefficients share, its bound rounded down.
#[tactic(auto, using(crate::proofs::Normal::divided_stay))]
pub fn tighten(alloc: Global, row: &Row) -> Result<Row, AllocError>
    ensures { IfOk result (λ r. row_of r ≡ tightened (row_of row.now)) }
{
    let g = common_divisor(&row.entries);
    if g == 0 {
        let entries = row.entries.to_vec(alloc)?;
        let bound = row.bound;
        return Ok(Row { entries, bound });
    }
    let entries = divided(alloc, g, &row.entries)?;
    let bound = floor_div(row.bound, g);
    Ok(Row { entries, bound })
}

/// The coefficient of a variable.
pub fn coefficient(entries: &[Entry], x: u32) -> i128
    ensures { result ≡ coefficient x entries.now }
{
    for t in entries {
        if t.variable == x {
            return t.by;
        }
    }
    0
}

/// A multiplier; 2^127 is refused.
fn multiplier(n: u128) -> Result<i128, OutOfRange>
    requires { n ≤ 2 ^ 127 }
    ensures is { result ≡ multiplier n }
    ensures low { IfOk result (λ k. pos 0 ≤ℤ k) }
{
    if n < 170141183460469231731687303715884105728 {
        Ok(n as i128)
    } else {
        neg(i128::MIN)
    }
}

/// The greatest common divisor of two coefficients on opposite sides of 0.
#[tactic(auto, using(crate::proofs::Divisors::gcd_above_zero))]
fn shared(a: i128, b: i128) -> u128
    requires { IsTrue (opposite a b) }
    ensures is { result ≡ gcd_of (unsigned_abs a) (unsigned_abs b) }
    ensures above_zero { 0 < result }
{
    gcd(a.unsigned_abs(), b.unsigned_abs())
}

/// Whether the two coefficients of the variable are on opposite sides of 0, so that it may be
/// eliminated.
pub fn are_opposite(a: &Row, b: &Row, x: u32) -> bool
    ensures { result ≡ opposite (coefficient x (row_of a.now).entries) (coefficient x (row_of b.now).entries) }
{
    let c = coefficient(&a.entries, x);
    let d = coefficient(&b.entries, x);
    (c > 0 && d < 0) || (c < 0 && d > 0)
}

/// A row without a variable, and the multipliers by which it was made.
#[derive(Drop)]
pub struct Eliminated {
    pub row: Row,
    /// Times the first row.
    pub first: i128,
    /// Times the second row.
    pub second: i128,
}

/// The sum of the least multiples in which the variable is gone, with the multipliers. They are
/// made first, and one of 2^127 is refused as the negation of -2^127.
pub fn eliminate_by(alloc: Global, a: &Row, b: &Row, x: u32) -> Result<Eliminated, Refused>
    requires { IsTrue (opposite (coefficient x (row_of a.now).entries) (coefficient x (row_of b.now).entries)) }
    ensures told { Told (λ made. row_of made.row) result (eliminated (row_of a.now) (row_of b.now) x) }
    ensures sum { IfOk result (λ made. combined (row_of a.now) made.first (row_of b.now) made.second ≡ Ok (row_of made.row)) }
    ensures first { IfOk result (λ made. pos 0 ≤ℤ made.first) }
    ensures second { IfOk result (λ made. pos 0 ≤ℤ made.second) }
{
    let c = coefficient(&a.entries, x);
    let d = coefficient(&b.entries, x);
    let g = shared(c, d);
    let first = multiplier(d.unsigned_abs() / g)?;
    let second = multiplier(c.unsigned_abs() / g)?;
    let row = combine(alloc, a, first, b, second)?;
    Ok(Eliminated { row, first, second })
}

/// The sum of the least multiples in which the variable is gone; its two coefficients are on
/// opposite sides of 0. Refused at the first operation that leaves the range.
pub fn eliminate(alloc: Global, a: &Row, b: &Row, x: u32) -> Result<Row, Refused>
    requires { IsTrue (opposite (coefficient x (row_of a.now).entries) (coefficient x (row_of b.now).entries)) }
    ensures { Told row_of result (eliminated (row_of a.now) (row_of b.now) x) }
{
    match eliminate_by(alloc, a, b, x) {
        Ok(Eliminated { row, .. }) => Ok(row),
        Err(e) => Err(e),
    }
}
