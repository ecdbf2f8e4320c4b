//! Which maps were met on the way along updates, which wait, and what is gone along later.
use crate::class::number;
use crate::false_here::{Selected, select_at};
use crate::first::is_same;
use crate::reads::read_by;
use crate::updates::first_read;
use crate::way::Sighted;
use bg_ast::resolved::Expr;
use bg_scalar::Scalar;
use std::alloc::{AllocError, Global};
use std::collections::{BTreeMap, BTreeSet};

/// A map, and an index at which it is selected from.
type Spot = (u32, Vec<Scalar>);

/// The selects that are there; the maps that were looked at, at which index; what is equal besides; the maps that wait, each with its
/// select; the terms that are gone along later; and all that were put among these.
#[derive(Drop)]
pub struct Paths {
    known: BTreeMap<Spot, u32>,
    done: BTreeSet<Spot>,
    equal: BTreeMap<u32, Vec<u32>>,
    waiting: Vec<(u32, u32)>,
    later: Vec<u32>,
    put: BTreeSet<u32>,
}

/// The number of the map that a term selects from, if it reads one.
fn map_of(sight: Sighted<'_>, a: u32) -> Option<u32> {
    match sight.terms.get(a as usize) {
        None => None,
        Some(t) => first_read(&t.args),
    }
}

/// The select at a place for its map and index, unless a later one stands there.
fn put_known(
    alloc: Global,
    sight: Sighted<'_>,
    known: &mut BTreeMap<Spot, u32>,
    a: u32,
) -> Result<(), AllocError> {
    match select_at(sight.rows, a) {
        None => Ok(()),
        Some(x) => match map_of(sight, a) {
            None => Ok(()),
            Some(map) => {
                known.insert((map, x.index.to_vec(alloc)?), a)?;
                Ok(())
            }
        },
    }
}

/// Nothing was met yet.
pub fn no_paths(alloc: Global, sight: Sighted<'_>) -> Result<Paths, AllocError> {
    let mut known = BTreeMap::new(alloc);
    for a in 0..sight.rows.len() {
        put_known(alloc, sight, &mut known, number(a)?)?;
    }
    Ok(Paths {
        known,
        done: BTreeSet::new(alloc),
        equal: BTreeMap::new(alloc),
        waiting: Vec::new(alloc),
        later: Vec::new(alloc),
        put: BTreeSet::new(alloc),
    })
}

/// The place of the select of a map at the index of a select, if it is there.
pub fn known_at(
    alloc: Global,
    paths: &Paths,
    map: u32,
    x: Selected<'_>,
) -> Result<Option<u32>, AllocError> {
    let spot = (map, x.index.to_vec(alloc)?);
    Ok(paths.known.get(&spot).copied())
}

/// Whether a map wasn't looked at yet at the index of a select; now it was.
pub fn is_new(
    alloc: Global,
    paths: &mut Paths,
    map: u32,
    x: Selected<'_>,
) -> Result<bool, AllocError> {
    let spot = (map, x.index.to_vec(alloc)?);
    let is_first = paths.done.insert(spot)?;
    Ok(is_first)
}

/// One that is equal to another.
fn put_one(
    alloc: Global,
    equal: &mut BTreeMap<u32, Vec<u32>>,
    x: u32,
    y: u32,
) -> Result<(), AllocError> {
    let mut all = match equal.remove(&x) {
        None => Vec::new(alloc),
        Some(v) => v,
    };
    all.push(y)?;
    equal.insert(x, all)?;
    Ok(())
}

/// The term with this number and what has the second number, which are equal.
pub fn put_two(
    alloc: Global,
    count: u32,
    paths: &mut Paths,
    s: u32,
    y: u32,
) -> Result<(), AllocError> {
    match count.checked_add(s) {
        None => Err(AllocError),
        Some(x) => {
            put_one(alloc, &mut paths.equal, x, y)?;
            put_one(alloc, &mut paths.equal, y, x)
        }
    }
}

/// The terms with these numbers, which are equal.
pub fn put_terms(
    alloc: Global,
    count: u32,
    paths: &mut Paths,
    s: u32,
    r: u32,
) -> Result<(), AllocError> {
    match count.checked_add(r) {
        None => Err(AllocError),
        Some(y) => put_two(alloc, count, paths, s, y),
    }
}

/// One more that waits.
pub fn wait(paths: &mut Paths, map: u32, s: u32) -> Result<(), AllocError> {
    paths.waiting.push((map, s))?;
    Ok(())
}

/// Nothing waits but the map of a select.
pub fn begin(sight: Sighted<'_>, paths: &mut Paths, a: u32) -> Result<(), AllocError> {
    paths.waiting.clear();
    match map_of(sight, a) {
        None => Ok(()),
        Some(map) => wait(paths, map, a),
    }
}

/// The last one that waits.
pub fn next(paths: &mut Paths) -> Option<(u32, u32)> {
    paths.waiting.pop()
}

/// Whether both have one scalar.
fn are_equal(sight: Sighted<'_>, x: u32, y: u32) -> bool {
    match sight.values.get(x as usize) {
        None => false,
        Some(p) => match sight.values.get(y as usize) {
            None => false,
            Some(q) => is_same(*p, *q),
        },
    }
}

/// This one, if it is new and has the scalar of a map.
fn put_new(
    sight: Sighted<'_>,
    there: &mut BTreeSet<u32>,
    made: &mut Vec<u32>,
    x: u32,
    y: u32,
) -> Result<(), AllocError> {
    if !are_equal(sight, x, y) {
        return Ok(());
    }
    let is_first = there.insert(y)?;
    if !is_first {
        return Ok(());
    }
    made.push(y)?;
    Ok(())
}

/// Those of these that are new and have the scalar of a map.
fn put_equal(
    sight: Sighted<'_>,
    there: &mut BTreeSet<u32>,
    made: &mut Vec<u32>,
    x: u32,
    beside: Option<&Vec<u32>>,
) -> Result<(), AllocError> {
    match beside {
        None => Ok(()),
        Some(all) => {
            for y in all {
                put_new(sight, there, made, x, *y)?;
            }
            Ok(())
        }
    }
}

/// A map, and those that are compared with it, one after the other, and have its scalar.
pub fn equals(
    alloc: Global,
    sight: Sighted<'_>,
    paths: &Paths,
    map: u32,
) -> Result<Vec<u32>, AllocError> {
    let mut made = Vec::new(alloc);
    let mut there = BTreeSet::new(alloc);
    made.push(map)?;
    there.insert(map)?;
    for i in 0..sight.values.len() {
        match made.get(i).copied() {
            None => return Ok(made),
            Some(x) => {
                put_equal(sight, &mut there, &mut made, x, sight.hints.beside.get(&x))?;
                put_equal(sight, &mut there, &mut made, x, paths.equal.get(&x))?;
            }
        }
    }
    Ok(made)
}

/// The term at this place is gone along later, unless it was put there before.
fn put_later(paths: &mut Paths, a: u32) -> Result<(), AllocError> {
    let is_first = paths.put.insert(a)?;
    if !is_first {
        return Ok(());
    }
    paths.later.push(a)?;
    Ok(())
}

/// What has this number is gone along later, if it is a term.
fn put_number(sight: Sighted<'_>, paths: &mut Paths, j: u32) -> Result<(), AllocError> {
    match j.checked_sub(sight.count) {
        None => Ok(()),
        Some(a) => put_later(paths, a),
    }
}

/// The terms that an expression reads are gone along later.
pub fn put_reads(
    alloc: Global,
    sight: Sighted<'_>,
    paths: &mut Paths,
    e: &Expr,
) -> Result<(), AllocError> {
    let mut read = Vec::new(alloc);
    read_by(e, &mut read)?;
    for j in &read {
        put_number(sight, paths, *j)?;
    }
    Ok(())
}

/// The last term that is gone along later.
pub fn later(paths: &mut Paths) -> Option<u32> {
    paths.later.pop()
}
