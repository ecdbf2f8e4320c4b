//! Values and the lines of functions, written.
ghost use Rattle.std.specs.Prelude.{◌≡◌, ◌++◌, ◌∷◌, [], OnOk, map, flat_map};
ghost use Rattle.std.specs.Fmt.{signed_decimal};
ghost use Rattle.bg_certtext.specs.Lines.{line, behind_comma};
ghost use Rattle.bg_certtext.specs.Texts.{element_word, part_word, index_word, default_text, value_text, key_text, table_text, function_words};
ghost use Rattle.bg_certtext.specs.Rows.{row_front, slot_row, slot_rows, entry_row, entry_rows};
ghost use Rattle.bg_certtext.specs.Views.{part_of, value_of, slot_of, entry_of, function_of};

use crate::put::put_word;
use crate::text::{Entry, Function, Part, Slot, Value};
use itoa::Buffer;
use std::alloc::AllocError;

/// A whole number.
fn put_plain_number(out: &mut Vec<u8>, n: i128) -> Result<(), AllocError>
    ensures { OnOk result (out.new.items ≡ out.old.items ++ signed_decimal n) }
{
    let mut buffer = Buffer::new();
    out.extend_from_slice(buffer.format(n).as_bytes())
}

/// An element: its type's name, an exclamation mark, and its number.
fn put_element(out: &mut Vec<u8>, t: &[u8], n: i128) -> Result<(), AllocError>
    ensures { OnOk result (out.new.items ≡ out.old.items ++ element_word t.now n) }
{
    out.extend_from_slice(t)?;
    out.push(b'!')?;
    put_plain_number(out, n)
}

/// A part of an index.
fn put_part(out: &mut Vec<u8>, part: Part<'_>) -> Result<(), AllocError>
    ensures { OnOk result (out.new.items ≡ out.old.items ++ part_word (part_of part.entry)) }
{
    match part {
        Part::Number(n) => put_plain_number(out, n),
        Part::Element(t, n) => put_element(out, t, n),
    }
}

/// Parts, each behind a comma.
fn put_other_parts(out: &mut Vec<u8>, parts: &[Part<'_>]) -> Result<(), AllocError>
    ensures { OnOk result (out.new.items ≡ out.old.items ++ flat_map behind_comma (map part_word (map part_of parts.now))) }
{
    for part in parts {
        out.push(b',')?;
        put_part(out, *part)?;
    }
    Ok(())
}

/// An index.
fn put_index(out: &mut Vec<u8>, index: &[Part<'_>]) -> Result<(), AllocError>
    ensures { OnOk result (out.new.items ≡ out.old.items ++ index_word (map part_of index.now)) }
{
    match index {
        [] => Ok(()),
        [first, rest @ ..] => {
            put_part(out, *first)?;
            put_other_parts(out, rest)
        }
    }
}

/// A value.
#[cycle(put_value)]
pub(crate) fn put_value(out: &mut Vec<u8>, value: &Value<'_>) -> Result<(), AllocError>
    ensures { OnOk result (out.new.items ≡ out.old.items ++ value_text (value_of value.now)) }
{
    match value {
        Value::Truth(true) => out.extend_from_slice(b"true"),
        Value::Truth(false) => out.extend_from_slice(b"false"),
        Value::Number(n) => put_plain_number(out, *n),
        Value::Element(t, n) => put_element(out, t, *n),
        Value::Map(slots, default) => {
            put_slots(out, slots)?;
            put_default(out, default)
        }
    }
}

/// The default of a table, and the bracket that closes it.
#[cycle(put_value)]
fn put_default(out: &mut Vec<u8>, default: &Value<'_>) -> Result<(), AllocError>
    ensures { OnOk result (out.new.items ≡ out.old.items ++ default_text (value_text (value_of default.now))) }
{
    out.extend_from_slice(b"else ")?;
    put_value(out, default)?;
    out.extend_from_slice(b"]")
}

/// A slot, and what stands between it and the next.
#[cycle(put_value)]
fn put_slot(out: &mut Vec<u8>, slot: &Slot<'_>) -> Result<(), AllocError>
    ensures { OnOk result (out.new.items ≡ out.old.items ++ row_front (slot_row (slot_of slot.now))) }
{
    put_index(out, &slot.index)?;
    out.extend_from_slice(b" := ")?;
    put_value(out, &slot.value)?;
    out.extend_from_slice(b", ")
}

/// The slots of a map.
#[cycle(put_value)]
fn put_slots(out: &mut Vec<u8>, slots: &[Slot<'_>]) -> Result<(), AllocError>
    ensures { OnOk result (out.new.items ≡ out.old.items ++ (91 ∷ flat_map row_front (slot_rows (map slot_of slots.now)))) }
{
    out.extend_from_slice(b"[")?;
    for slot in slots {
        put_slot(out, slot)?;
    }
    Ok(())
}

/// Values, each behind a comma.
fn put_others(out: &mut Vec<u8>, values: &[Value<'_>]) -> Result<(), AllocError>
    ensures { OnOk result (out.new.items ≡ out.old.items ++ flat_map behind_comma (map value_text (map value_of values.now))) }
{
    for value in values {
        out.push(b',')?;
        put_value(out, value)?;
    }
    Ok(())
}

/// The arguments of an entry.
fn put_key(out: &mut Vec<u8>, key: &[Value<'_>]) -> Result<(), AllocError>
    ensures { OnOk result (out.new.items ≡ out.old.items ++ key_text (map value_of key.now)) }
{
    match key {
        [] => Ok(()),
        [first, rest @ ..] => {
            put_value(out, first)?;
            put_others(out, rest)
        }
    }
}

/// An entry, and what stands between it and the next.
fn put_entry(out: &mut Vec<u8>, entry: &Entry<'_>) -> Result<(), AllocError>
    ensures { OnOk result (out.new.items ≡ out.old.items ++ row_front (entry_row (entry_of entry.now))) }
{
    put_key(out, &entry.key)?;
    out.extend_from_slice(b" := ")?;
    put_value(out, &entry.value)?;
    out.extend_from_slice(b", ")
}

/// The entries of a function's table.
fn put_entries(out: &mut Vec<u8>, entries: &[Entry<'_>]) -> Result<(), AllocError>
    ensures { OnOk result (out.new.items ≡ out.old.items ++ (91 ∷ flat_map row_front (entry_rows (map entry_of entries.now)))) }
{
    out.extend_from_slice(b"[")?;
    for entry in entries {
        put_entry(out, entry)?;
    }
    Ok(())
}

/// A function's table: its entries and its default.
fn put_table(
    out: &mut Vec<u8>,
    entries: &[Entry<'_>],
    default: &Value<'_>,
) -> Result<(), AllocError>
    ensures { OnOk result (out.new.items ≡ out.old.items ++ table_text (map entry_of entries.now) (value_of default.now)) }
{
    put_entries(out, entries)?;
    put_default(out, default)
}

/// The line of a function.
fn put_function(out: &mut Vec<u8>, function: &Function<'_>) -> Result<(), AllocError>
    ensures { OnOk result (out.new.items ≡ out.old.items ++ line (function_words (function_of function.now))) }
{
    out.extend_from_slice(b"function")?;
    put_word(out, function.name)?;
    out.extend_from_slice(b" ")?;
    put_table(out, &function.entries, &function.default)?;
    out.push(b'\n')?;
    Ok(())
}

/// The lines of functions.
pub(crate) fn put_functions(out: &mut Vec<u8>, functions: &[Function<'_>]) -> Result<(), AllocError>
    ensures { OnOk result (out.new.items ≡ out.old.items ++ flat_map line (map function_words (map function_of functions.now))) }
{
    for function in functions {
        put_function(out, function)?;
    }
    Ok(())
}
