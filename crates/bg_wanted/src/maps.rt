//! Selects by their maps.
ghost use Rattle.std.specs.Prelude.{◌≡◌, ◌++◌, ◌∷◌, [], List, length, if◌then◌else◌, IfOk, OnOk};
ghost use Rattle.bg_wanted.specs.Rows.{RowOf, row_of, rows_of};
ghost use Rattle.bg_wanted.specs.Selects.{MapOf, places_at, is_map, map_in, HasSelects};

use crate::class::{Class, number};
use crate::row::Row;
use bg_scalar::Scalar;
use std::alloc::{AllocError, Global};
use std::collections::BTreeMap;

/// The places of the selects from each map, in their order; a map is a type of maps and a scalar.
pub type Selects = BTreeMap<(u32, Scalar), Vec<u32>>;

/// The places of a map, which are taken out.
fn taken(alloc: Global, selects: &mut Selects, map: (u32, Scalar)) -> Vec<u32>
    ensures places { result.items ≡ places_at selects.old map }
    ensures others { (k : MapOf) → places_at selects.new k ≡ (if is_map map k then [] else places_at selects.old k) }
{
    match selects.remove(&map) {
        None => Vec::new(alloc),
        Some(places) => places,
    }
}

/// A place more for a map.
fn put(
    alloc: Global,
    selects: &mut Selects,
    map: (u32, Scalar),
    place: u32,
) -> Result<(), AllocError>
    ensures { OnOk result ((k : MapOf) → places_at selects.new k ≡ (if is_map map k then places_at selects.old k ++ place ∷ [] else places_at selects.old k)) }
{
    let mut places = taken(alloc, selects, map);
    places.push(place)?;
    selects.insert(map, places)?;
    Ok(())
}

/// The map that a row selects from.
fn map_of(row: &Row) -> Option<(u32, Scalar)>
    ensures { result ≡ map_in row.now.class row.now.args.items }
{
    match row.class {
        Class::Function(_) => None,
        Class::Select(maps) => match row.args.first() {
            None => None,
            Some(x) => Some((maps, *x)),
        },
        Class::Update(_) => None,
        Class::Part(_, _) => None,
    }
}

/// A row more, which has this place.
fn put_row(alloc: Global, selects: &mut Selects, row: &Row, place: u32) -> Result<(), AllocError>
    ensures { OnOk result ((rs : List RowOf) → place ≡ length rs → HasSelects selects.old rs → HasSelects selects.new (rs ++ row_of row.now ∷ [])) }
{
    match map_of(row) {
        None => Ok(()),
        Some(map) => put(alloc, selects, map, place),
    }
}

/// The places of the selects from each map.
pub fn all_selects(alloc: Global, rows: &[Row]) -> Result<Selects, AllocError>
    ensures { IfOk result (λ made. HasSelects made (rows_of rows.now)) }
{
    let mut made = BTreeMap::new(alloc);
    let mut i = 0;
    while i < rows.len() {
        let place = number(i)?;
        put_row(alloc, &mut made, &rows[i], place)?;
        i += 1;
    }
    Ok(made)
}

/// The places of the selects from a map.
pub fn places(selects: &Selects, map: (u32, Scalar)) -> &[u32]
    ensures { result.now ≡ places_at selects.now map }
{
    match selects.get(&map) {
        None => &[],
        Some(places) => places,
    }
}
