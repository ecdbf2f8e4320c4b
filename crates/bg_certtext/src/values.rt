//! Values that are read: maps, and tables of functions.
ghost use Rattle.std.specs.Prelude.{◌≡◌, None, map, IfOk, option_map};
ghost use Rattle.bg_certtext.specs.Views.{value_of, slot_of, with_slots, Default};
ghost use Rattle.bg_certtext.specs.Spellable.{are_slots};
ghost use Rattle.bg_certtext.specs.Machine.{then_, when, default_from, row_from, map_of, index_from, value_at, key_at};
ghost use Rattle.bg_certtext.specs.Got.{value_got, default_got, slot_got, slots_at, prefix, key_got, entry_got};

use crate::keys::{index_from, plain_from};
use crate::sorted::are_slots;
use crate::text::{Entry, Slot, Value};
use crate::words::behind;
use std::alloc::{AllocError, Global};

/// How many brackets of maps stand within one another at most; a value with more is as one for which there is no memory.
const DEPTH: u32 = 1000;

/// A map of these slots, where they are in order.
#[tactic(auto, using(crate::proofs::Rows::map_forms))]
fn made<'a>(
    alloc: Global,
    slots: Vec<Slot<'a>>,
    default: Value<'a>,
) -> Result<Option<Value<'a>>, AllocError>
    ensures { IfOk result (λ o. option_map value_of o ≡ when (are_slots None (value_of default.entry) (map slot_of slots.entry.items)) (with_slots (map slot_of slots.entry.items) (Default (value_of default.entry)))) }
{
    if are_slots(&slots, &default) {
        Ok(Some(Value::Map(slots, Box::new(alloc, default)?)))
    } else {
        Ok(None)
    }
}

/// A value, and what stands behind it.
#[cycle(value_from)]
fn value_from<'a>(
    alloc: Global,
    depth: u32,
    bytes: &'a [u8],
) -> Result<Option<(Value<'a>, &'a [u8])>, AllocError>
    ensures { IfOk result (λ o. option_map value_got o ≡ value_at bytes.entry.now) }
{
    match behind(b"[", bytes) {
        None => Ok(plain_from(bytes)),
        Some(rest) => {
            if depth == 0 {
                return Err(AllocError);
            }
            map_from(alloc, depth - 1, rest)
        }
    }
}

/// A default, and what stands behind the bracket that closes.
#[cycle(value_from)]
fn default_from<'a>(
    alloc: Global,
    depth: u32,
    bytes: &'a [u8],
) -> Result<Option<(Value<'a>, &'a [u8])>, AllocError>
    ensures { IfOk result (λ o. option_map default_got o ≡ default_from index_from value_at bytes.entry.now) }
{
    let Some((default, rest)) = value_from(alloc, depth, bytes)? else {
        return Ok(None);
    };
    match behind(b"]", rest) {
        None => Ok(None),
        Some(rest) => Ok(Some((default, rest))),
    }
}

/// A slot, and what stands behind it.
#[cycle(value_from)]
fn slot_from<'a>(
    alloc: Global,
    depth: u32,
    bytes: &'a [u8],
) -> Result<Option<(Slot<'a>, &'a [u8])>, AllocError>
    ensures { IfOk result (λ o. option_map slot_got o ≡ row_from index_from value_at bytes.entry.now) }
{
    let Some((index, rest)) = index_from(alloc, bytes)? else {
        return Ok(None);
    };
    let Some(rest) = behind(b" := ", rest) else {
        return Ok(None);
    };
    let Some((value, rest)) = value_from(alloc, depth, rest)? else {
        return Ok(None);
    };
    match behind(b", ", rest) {
        None => Ok(None),
        Some(rest) => Ok(Some((Slot { index, value }, rest))),
    }
}

/// A map of these slots whose default stands in front, and what stands behind it.
#[cycle(value_from)]
fn closed_from<'a>(
    alloc: Global,
    depth: u32,
    slots: Vec<Slot<'a>>,
    bytes: &'a [u8],
) -> Result<Option<(Value<'a>, &'a [u8])>, AllocError>
    ensures { IfOk result (λ o. option_map value_got o ≡ then_ (prefix (map slot_of slots.entry.items) (default_from index_from value_at bytes.entry.now)) map_of) }
{
    let Some((default, rest)) = default_from(alloc, depth, bytes)? else {
        return Ok(None);
    };
    match made(alloc, slots, default)? {
        None => Ok(None),
        Some(map) => Ok(Some((map, rest))),
    }
}

/// A map behind its bracket, and what stands behind it.
#[cycle(value_from)]
fn map_from<'a>(
    alloc: Global,
    depth: u32,
    bytes: &'a [u8],
) -> Result<Option<(Value<'a>, &'a [u8])>, AllocError>
    ensures { IfOk result (λ o. option_map value_got o ≡ then_ (slots_at bytes.entry.now) map_of) }
{
    let mut slots = Vec::new(alloc);
    let mut rest = bytes;
    loop {
        if let Some(last) = behind(b"else ", rest) {
            return closed_from(alloc, depth, slots, last);
        }
        let Some((slot, more)) = slot_from(alloc, depth, rest)? else {
            return Ok(None);
        };
        slots.push(slot)?;
        rest = more;
    }
}

/// The value that stands in front, and what stands behind it.
pub(crate) fn value_at<'a>(
    alloc: Global,
    bytes: &'a [u8],
) -> Result<Option<(Value<'a>, &'a [u8])>, AllocError>
    ensures { IfOk result (λ o. option_map value_got o ≡ value_at bytes.entry.now) }
{
    value_from(alloc, DEPTH, bytes)
}

/// The default of a table, and what stands behind the bracket that closes it.
pub(crate) fn last_value<'a>(
    alloc: Global,
    bytes: &'a [u8],
) -> Result<Option<(Value<'a>, &'a [u8])>, AllocError>
    ensures { IfOk result (λ o. option_map default_got o ≡ default_from key_at value_at bytes.entry.now) }
{
    let Some((default, rest)) = value_at(alloc, bytes)? else {
        return Ok(None);
    };
    match behind(b"]", rest) {
        None => Ok(None),
        Some(rest) => Ok(Some((default, rest))),
    }
}

/// The arguments of an entry, with a comma between two, and what stands behind them; none in front of a space.
fn key_at<'a>(
    alloc: Global,
    bytes: &'a [u8],
) -> Result<Option<(Vec<Value<'a>>, &'a [u8])>, AllocError>
    ensures { IfOk result (λ o. option_map key_got o ≡ key_at bytes.entry.now) }
{
    let mut values = Vec::new(alloc);
    if behind(b" ", bytes).is_some() {
        return Ok(Some((values, bytes)));
    }
    let mut rest = bytes;
    loop {
        let Some((value, more)) = value_at(alloc, rest)? else {
            return Ok(None);
        };
        values.push(value)?;
        match behind(b",", more) {
            None => return Ok(Some((values, more))),
            Some(next) => rest = next,
        }
    }
}

/// An entry of a function's table, and what stands behind it.
pub(crate) fn entry_from<'a>(
    alloc: Global,
    bytes: &'a [u8],
) -> Result<Option<(Entry<'a>, &'a [u8])>, AllocError>
    ensures { IfOk result (λ o. option_map entry_got o ≡ row_from key_at value_at bytes.entry.now) }
{
    let Some((key, rest)) = key_at(alloc, bytes)? else {
        return Ok(None);
    };
    let Some(rest) = behind(b" := ", rest) else {
        return Ok(None);
    };
    let Some((value, rest)) = value_at(alloc, rest)? else {
        return Ok(None);
    };
    match behind(b", ", rest) {
        None => Ok(None),
        Some(rest) => Ok(Some((Entry { key, value }, rest))),
    }
}
