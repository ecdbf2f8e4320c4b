//! Brackets behind maps: selects, and updates.
ghost use Rattle.std.specs.Prelude.{◌≡◌, [], ◌∷◌, ◌++◌, IfOk, OnOk};
ghost use Rattle.bg_scalar.specs.Worths as spec;
ghost use Rattle.bg_scalar.specs.Values.{value_of};
ghost use Rattle.bg_scalar.specs.Lists.{listed};
ghost use Rattle.bg_scalar.specs.Indices.{part_in, index_in, key_made, kept_at};
ghost use Rattle.bg_scalar.specs.Worths.{known};
ghost use Rattle.bg_scalar.specs.Views.{vals_in, lent_in, lent_at, found_in, worth_in};

use crate::held::{Found, Lent, ListWorth, Worth, owned};
use crate::map::{select, update};
use crate::scalar::Scalar;
use crate::value::{Value, copy};
use std::alloc::{AllocError, Global};

/// The number of a part of an index, if it may be one.
#[tactic(auto, using(crate::proofs::Operands::map_is_no_part))]
fn part(v: &Value) -> Option<i128>
    ensures { result ≡ part_in (value_of v.now) }
{
    match v {
        Value::Plain(Scalar::Truth(_)) => None,
        Value::Plain(Scalar::Number(z)) => Some(*z),
        Value::Plain(Scalar::Element(_, z)) => Some(*z),
        Value::Map(_, _) => None,
    }
}

/// Adds a number.
fn push_part(made: &mut Vec<i128>, z: i128) -> Result<(), AllocError>
    ensures { OnOk result (made.new.items ≡ made.old.items ++ z ∷ []) }
{
    made.push(z)?;
    Ok(())
}

/// The key of an index, if these may be its parts.
#[tactic(auto, using(crate::proofs::Keyed::onto_no_key))]
fn key(alloc: Global, index: &[Value]) -> Result<Option<Vec<i128>>, AllocError>
    ensures { IfOk result (λ made. key_made made ≡ index_in (vals_in index.now)) }
{
    let mut made = Vec::new(alloc);
    for v in index {
        match part(v) {
            None => return Ok(None),
            Some(z) => push_part(&mut made, z)?,
        }
    }
    Ok(Some(made))
}

/// The value of a map at a key; none of what is no map.
#[tactic(auto, using(crate::proofs::Operands::at_forms))]
fn at<'a>(v: &'a Value, key: &[i128]) -> Option<&'a Value>
    ensures { lent_at result ≡ kept_at (value_of v.now) key.now }
{
    match v {
        Value::Plain(_) => None,
        Value::Map(entries, default) => Some(select(entries, default, key)),
    }
}

/// The value of a map at an index, lent from the map; none of what is no map, and at what is no index.
fn chosen<'a>(
    alloc: Global,
    map: &'a Value,
    index: &[Value],
) -> Result<Option<&'a Value>, AllocError>
    ensures { IfOk result (λ x. known (lent_at x) ≡ spec.chosen (value_of map.now) (vals_in index.now)) }
{
    match key(alloc, index)? {
        None => Ok(None),
        Some(key) => Ok(at(map, &key)),
    }
}

/// What an index behind a value that is kept elsewhere comes to: what is wrong with the value, or with the index, or else the map's value
/// there.
///
/// Only want of memory is an error.
pub fn inside<'a>(alloc: Global, map: Found<'a>, index: &ListWorth) -> Result<Found<'a>, AllocError>
    ensures { IfOk result (λ x. found_in x ≡ spec.selected (found_in map.entry) (listed index.now)) }
{
    match map {
        Found::Leaves(o) => Ok(Found::Leaves(o)),
        Found::NoValue => Ok(Found::NoValue),
        Found::Is(map) => match index {
            ListWorth::Leave(o) => Ok(Found::Leaves(*o)),
            ListWorth::NoValues => Ok(Found::NoValue),
            ListWorth::Are(index) => match chosen(alloc, map, index)? {
                None => Ok(Found::NoValue),
                Some(x) => Ok(Found::Is(x)),
            },
        },
    }
}

/// The value of a map at an index: lent where the map is kept elsewhere, so that no map is copied.
fn chosen_of<'a>(alloc: Global, map: Lent<'a>, index: &[Value]) -> Result<Worth<'a>, AllocError>
    ensures { IfOk result (λ x. worth_in x ≡ spec.chosen (lent_in map.entry) (vals_in index.now)) }
{
    match map {
        Lent::Kept(map) => match chosen(alloc, map, index)? {
            None => Ok(Worth::NoValue),
            Some(x) => Ok(Worth::Is(Lent::Kept(x))),
        },
        Lent::Made(map) => match chosen(alloc, &map, index)? {
            None => Ok(Worth::NoValue),
            Some(x) => Ok(Worth::Is(Lent::Made(copy(alloc, x)?))),
        },
    }
}

/// What an index behind a value comes to: what is wrong with the value, or with the index, or else the map's value there.
pub fn selected<'a>(
    alloc: Global,
    value: Worth<'a>,
    index: &ListWorth,
) -> Result<Worth<'a>, AllocError>
    ensures { IfOk result (λ x. worth_in x ≡ spec.selected (worth_in value.entry) (listed index.now)) }
{
    match value {
        Worth::Leaves(o) => Ok(Worth::Leaves(o)),
        Worth::NoValue => Ok(Worth::NoValue),
        Worth::Is(map) => match index {
            ListWorth::Leave(o) => Ok(Worth::Leaves(*o)),
            ListWorth::NoValues => Ok(Worth::NoValue),
            ListWorth::Are(index) => chosen_of(alloc, map, index),
        },
    }
}

/// The map with another value at an index. A map that was made is changed, one that is kept elsewhere is copied.
fn written<'a>(
    alloc: Global,
    map: Lent<'a>,
    index: &[Value],
    new: Lent<'a>,
) -> Result<Worth<'a>, AllocError>
    ensures { IfOk result (λ x. worth_in x ≡ spec.written (lent_in map.entry) (vals_in index.now) (lent_in new.entry)) }
{
    match key(alloc, index)? {
        None => Ok(Worth::NoValue),
        Some(key) => match owned(alloc, map)? {
            Value::Plain(_) => Ok(Worth::NoValue),
            Value::Map(entries, default) => {
                let mut entries = entries;
                let new = owned(alloc, new)?;
                update(&mut entries, &default, key, new)?;
                Ok(Worth::Is(Lent::Made(Value::Map(entries, default))))
            }
        },
    }
}

/// What a new value at an index comes to: what is wrong with the value before, with the index, or with the new value, or else the map with
/// it there.
///
/// Only want of memory is an error.
pub fn updated<'a>(
    alloc: Global,
    value: Worth<'a>,
    index: &ListWorth,
    new: Worth<'a>,
) -> Result<Worth<'a>, AllocError>
    ensures { IfOk result (λ x. worth_in x ≡ spec.updated (worth_in value.entry) (listed index.now) (worth_in new.entry)) }
{
    match value {
        Worth::Leaves(o) => Ok(Worth::Leaves(o)),
        Worth::NoValue => Ok(Worth::NoValue),
        Worth::Is(map) => match index {
            ListWorth::Leave(o) => Ok(Worth::Leaves(*o)),
            ListWorth::NoValues => Ok(Worth::NoValue),
            ListWorth::Are(index) => match new {
                Worth::Leaves(o) => Ok(Worth::Leaves(o)),
                Worth::NoValue => Ok(Worth::NoValue),
                Worth::Is(new) => written(alloc, map, index, new),
            },
        },
    }
}
