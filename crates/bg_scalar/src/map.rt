//! Selects and updates of maps.
ghost use Rattle.std.specs.Prelude.{◌≡◌, ◌≤◌, length, map, slice_get, OnOk};
ghost use Rattle.bg_ast.specs.Values.{select, update, val_eq};
ghost use Rattle.bg_scalar.specs.Values.{value_of};
ghost use Rattle.bg_scalar.specs.Maps.{key_in, entry_in, is_key, map_of, place_in, put_in, taken_out};

use crate::keys::{are_same_keys, is_before};
use crate::value::{Entry, Value, is_same};
use std::alloc::AllocError;

/// The value of a map with these entries and this default at a key.
pub fn select<'a>(entries: &'a [Entry], default: &'a Value, key: &[i128]) -> &'a Value
    ensures { value_of result.now ≡ select (map_of entries.now (value_of default.now)) key.now }
{
    for e in entries {
        if are_same_keys(&e.key, key) {
            return &e.value;
        }
    }
    default
}

/// The place of the first entry whose key doesn't stand before this one.
fn place(entries: &[Entry], key: &[i128]) -> usize
    ensures { result ≡ place_in (map key_in entries.now) key.now }
{
    let mut i = 0;
    while i < entries.len() {
        let k = &entries[i].key;
        if are_same_keys(key, k) || is_before(key, k) {
            return i;
        }
        i += 1;
    }
    i
}

/// Whether an entry with this key has this place.
fn is_at(entries: &[Entry], i: usize, key: &[i128]) -> bool
    ensures { result ≡ is_key (slice_get (map key_in entries.now) i) key.now }
{
    match entries.get(i) {
        None => false,
        Some(e) => are_same_keys(key, &e.key),
    }
}

/// Takes the entry with this key away, if one has this place.
fn take_out(entries: &mut Vec<Entry>, i: usize, key: &[i128]) -> Option<Entry>
    ensures { map entry_in entries.new.items ≡ taken_out (is_key (slice_get (map key_in entries.old.items) i) key.now) i (map entry_in entries.old.items) }
{
    if is_at(entries, i, key) {
        Some(entries.remove(i))
    } else {
        None
    }
}

/// Puts an entry at a place, unless its value is the default.
fn put_in(
    entries: &mut Vec<Entry>,
    default: &Value,
    i: usize,
    key: Vec<i128>,
    value: Value,
) -> Result<(), AllocError>
    requires { i ≤ length entries.old.items }
    ensures { OnOk result (map entry_in entries.new.items ≡ put_in (val_eq (value_of value) (value_of default.now)) i (key.items, value_of value) (map entry_in entries.old.items)) }
{
    if is_same(&value, default) {
        return Ok(());
    }
    entries.insert(i, Entry { key, value })?;
    Ok(())
}

/// The map with these entries and this default has another value at a key from now on.
///
/// Entries are in the order of their keys, so there is one place where the key stands or could stand. Takes time for the entries.
pub fn update(
    entries: &mut Vec<Entry>,
    default: &Value,
    key: Vec<i128>,
    value: Value,
) -> Result<(), AllocError>
    ensures { OnOk result (map_of entries.new.items (value_of default.now) ≡ update (map_of entries.old.items (value_of default.now)) key.items (value_of value)) }
{
    let i = place(entries, &key);
    let old = take_out(entries, i, &key);
    put_in(entries, default, i, key, value)
}
