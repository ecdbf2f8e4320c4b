//! Constants and functions that are read.
ghost use Rattle.std.specs.Prelude.{◌≡◌, ◌<◌, ◌&&◌, None, length, map, IfOk, option_map};
ghost use Rattle.bg_certtext.specs.Words.{words_of};
ghost use Rattle.bg_certtext.specs.Machine.{when, given_in, function_in, table_at, default_from, key_at, value_at};
ghost use Rattle.bg_certtext.specs.Spellable.{is_name, are_entries};
ghost use Rattle.bg_certtext.specs.Views.{value_of, given_of, entry_of, function_of};
ghost use Rattle.bg_certtext.specs.Got.{table_got, entries_at, prefix, pairs_of};

use crate::sorted::are_entries;
use crate::text::{Entry, Function, Given, Value};
use crate::values::{entry_from, last_value, value_at};
use crate::words::{behind, behind_word, is_name};
use std::alloc::{AllocError, Global};

/// A constant's name and value, where these bytes stand behind a line's first word.
pub(crate) fn given_in<'a>(
    alloc: Global,
    words: &[&'a [u8]],
    bytes: &'a [u8],
) -> Result<Option<Given<'a>>, AllocError>
    requires { 0 < length words.now → map (λ w. w.now) words.now ≡ words_of bytes.now }
    ensures { IfOk result (λ o. option_map given_of o ≡ given_in (map (λ w. w.now) words.entry.now)) }
{
    let [name, _, ..] = words else {
        return Ok(None);
    };
    let Some((value, rest)) = value_at(alloc, behind_word(bytes))? else {
        return Ok(None);
    };
    if !rest.is_empty() {
        return Ok(None);
    }
    if is_name(name) {
        Ok(Some(Given { name, value }))
    } else {
        Ok(None)
    }
}

/// The entries of a function's table, its default, and what stands behind its bracket.
fn table_at<'a>(
    alloc: Global,
    bytes: &'a [u8],
) -> Result<Option<(Vec<Entry<'a>>, Value<'a>, &'a [u8])>, AllocError>
    ensures { IfOk result (λ o. option_map table_got o ≡ table_at bytes.entry.now) }
{
    match behind(b"[", bytes) {
        None => Ok(None),
        Some(start) => entries_at(alloc, start),
    }
}

/// The same behind the bracket that opens it.
fn entries_at<'a>(
    alloc: Global,
    bytes: &'a [u8],
) -> Result<Option<(Vec<Entry<'a>>, Value<'a>, &'a [u8])>, AllocError>
    ensures { IfOk result (λ o. option_map table_got o ≡ entries_at bytes.entry.now) }
{
    let mut entries = Vec::new(alloc);
    let mut rest = bytes;
    loop {
        if let Some(last) = behind(b"else ", rest) {
            return closed_at(alloc, entries, last);
        }
        let Some((entry, more)) = entry_from(alloc, rest)? else {
            return Ok(None);
        };
        entries.push(entry)?;
        rest = more;
    }
}

/// A table of these entries whose default stands in front, and what stands behind it.
fn closed_at<'a>(
    alloc: Global,
    entries: Vec<Entry<'a>>,
    bytes: &'a [u8],
) -> Result<Option<(Vec<Entry<'a>>, Value<'a>, &'a [u8])>, AllocError>
    ensures { IfOk result (λ o. option_map table_got o ≡ prefix (pairs_of entries.entry.items) (default_from key_at value_at bytes.entry.now)) }
{
    match last_value(alloc, bytes)? {
        None => Ok(None),
        Some((default, rest)) => Ok(Some((entries, default, rest))),
    }
}

/// A function of this name with this table, where it has a text.
fn function_for<'a>(
    name: &'a [u8],
    entries: Vec<Entry<'a>>,
    default: Value<'a>,
) -> Option<Function<'a>>
    ensures { option_map function_of result ≡ when (is_name name.entry.now && are_entries None (value_of default.entry) (map entry_of entries.entry.items)) (record { name = name.entry.now; entries = map entry_of entries.entry.items; default = value_of default.entry }) }
{
    if is_name(name) && are_entries(&default, &entries) {
        Some(Function {
            name,
            entries,
            default,
        })
    } else {
        None
    }
}

/// A function's name and table, where these bytes stand behind a line's first word.
pub(crate) fn function_in<'a>(
    alloc: Global,
    words: &[&'a [u8]],
    bytes: &'a [u8],
) -> Result<Option<Function<'a>>, AllocError>
    requires { 0 < length words.now → map (λ w. w.now) words.now ≡ words_of bytes.now }
    ensures { IfOk result (λ o. option_map function_of o ≡ function_in (map (λ w. w.now) words.entry.now)) }
{
    let [name, _, ..] = words else {
        return Ok(None);
    };
    let Some((entries, default, rest)) = table_at(alloc, behind_word(bytes))? else {
        return Ok(None);
    };
    if !rest.is_empty() {
        return Ok(None);
    }
    Ok(function_for(name, entries, default))
}
