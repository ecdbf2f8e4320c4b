//! Rows are put in order by the first of their variables.
ghost use Rattle.std.specs.Prelude.{◌≡◌, map, IfOk};
ghost use Rattle.std.specs.Ordering.{nat_cmp};
ghost use Rattle.std.specs.BTreeMap.{get};
ghost use Rattle.bg_rows.specs.Rows.{row_of};
ghost use Rattle.bg_point.specs.Shelves.{IsShelved, IsPlaces, stand, place_in};

use bg_rows::{Entry, Row};
use std::alloc::{AllocError, Global};
use std::collections::BTreeMap;

/// For each place of an order the first row of which the first variable in the order stands there, and for each row the next such row;
/// the number of rows where there is none.
#[derive(Drop)]
pub struct Shelves {
    pub heads: Vec<usize>,
    pub nexts: Vec<usize>,
}

/// The place of each variable of an order.
fn places(alloc: Global, order: &[u32]) -> Result<BTreeMap<u32, usize>, AllocError>
    ensures { IfOk result (λ places. IsPlaces order.now places) }
{
    let mut places = BTreeMap::new(alloc);
    let mut i = order.len();
    while i > 0 {
        i -= 1;
        places.insert(order[i], i)?;
    }
    Ok(places)
}

/// The place of a variable; the order's length where it isn't there.
fn place_of(order: &[u32], places: &BTreeMap<u32, usize>, x: u32) -> usize
    requires { IsPlaces order.now places.now }
    ensures { result ≡ place_in order.now x }
{
    match places.get(&x) {
        Some(p) => *p,
        None => order.len(),
    }
}

/// The first place of a variable that stands in the entries.
fn stand(order: &[u32], places: &BTreeMap<u32, usize>, entries: &[Entry]) -> usize
    requires { IsPlaces order.now places.now }
    ensures { result ≡ stand order.now entries.now }
{
    let mut first = order.len();
    for t in entries {
        first = first.min(place_of(order, places, t.variable));
    }
    first
}

/// The rows by the first of their variables in an order.
pub fn shelve(alloc: Global, order: &[u32], rows: &[Row]) -> Result<Shelves, AllocError>
    ensures { IfOk result (λ s. IsShelved order.now (map row_of rows.now) s) }
{
    let places = places(alloc, order)?;
    let mut heads = vec![in alloc; rows.len(); order.len()]?;
    let mut nexts = vec![in alloc; rows.len(); rows.len()]?;
    let mut n = rows.len();
    while n > 0 {
        n -= 1;
        let p = stand(order, &places, &rows[n].entries);
        if p < heads.len() {
            nexts[n] = heads[p];
            heads[p] = n;
        }
    }
    Ok(Shelves { heads, nexts })
}
