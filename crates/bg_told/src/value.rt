//! Values.
ghost use Rattle.std.specs.Prelude.{◌≡◌, ◌++◌, ◌∷◌, OnOk, map, flat_map};
ghost use Rattle.bg_ast.specs.Values.{Ty, result_of};
ghost use Rattle.bg_ast.specs.Views.{type_of};
ghost use Rattle.bg_kinds.specs.Views.{key_of, ref_of};
ghost use Rattle.bg_scalar.specs.Values.{val_of, value_of};
ghost use Rattle.bg_told.specs.Lines.{texts};
ghost use Rattle.bg_told.specs.ValueTexts.{index_types, default_text, number_text, number_behind, index_text, value_text};
ghost use Rattle.bg_told.specs.Sheets.{read_type};
ghost use Rattle.bg_told.specs.Entries.{declared_types, types_in, entry_front};

use crate::put::{put_element, put_integer, put_truth};
use bg_ast::resolved::{TypeName, WrittenType};
use bg_fits::written_kind;
use bg_kinds::{IndexType, TypeRef};
use bg_scalar::{Entry, Scalar, Value};
use std::alloc::AllocError;

/// The index types of a map.
#[tactic(auto, using(crate::proofs::Towers::base_index))]
fn indices(t: TypeRef<'_>) -> &[IndexType]
    ensures { map key_of result.now ≡ index_types (ref_of t.entry) }
{
    match t.maps.split_first() {
        None => &[],
        Some((k, _)) => &k.keys,
    }
}

/// The type of what a map has at an index; the type itself, where it is no map.
#[tactic(auto, using(crate::proofs::Towers::base_result))]
fn behind(t: TypeRef<'_>) -> TypeRef<'_>
    ensures { ref_of result ≡ result_of (ref_of t.entry) }
{
    match t.maps.split_first() {
        None => t,
        Some((_, rest)) => TypeRef {
            maps: rest,
            base: t.base,
        },
    }
}

/// A part of an index.
fn put_key(
    out: &mut Vec<u8>,
    types: &[TypeName],
    key: IndexType,
    number: i128,
) -> Result<(), AllocError>
    ensures { OnOk result (out.new.items ≡ out.old.items ++ number_text (types_in types.now) (key_of key) number) }
{
    match key {
        IndexType::Int => put_integer(out, number),
        IndexType::User(t) => put_element(out, types, t, number),
    }
}

/// A part of an index that isn't its first.
fn put_other(
    out: &mut Vec<u8>,
    types: &[TypeName],
    key: IndexType,
    number: &i128,
) -> Result<(), AllocError>
    ensures { OnOk result (out.new.items ≡ out.old.items ++ number_behind (types_in types.now) (key_of key) number.now) }
{
    out.extend_from_slice(b",")?;
    put_key(out, types, key, *number)
}

/// The parts of an index behind its first.
fn put_others(
    out: &mut Vec<u8>,
    types: &[TypeName],
    keys: &[IndexType],
    numbers: &[i128],
) -> Result<(), AllocError>
    ensures { OnOk result (out.new.items ≡ out.old.items ++ texts (number_behind (types_in types.now)) (map key_of keys.now) numbers.now) }
{
    for (i, key) in keys.iter().enumerate() {
        if i >= numbers.len() {
            return Ok(());
        }
        put_other(out, types, *key, &numbers[i])?;
    }
    Ok(())
}

/// An index.
fn put_index(
    out: &mut Vec<u8>,
    types: &[TypeName],
    keys: &[IndexType],
    numbers: &[i128],
) -> Result<(), AllocError>
    ensures { OnOk result (out.new.items ≡ out.old.items ++ index_text (types_in types.now) (map key_of keys.now) numbers.now) }
{
    match keys.split_first() {
        None => Ok(()),
        Some((key, keys)) => match numbers.split_first() {
            None => Ok(()),
            Some((number, numbers)) => {
                put_key(out, types, *key, *number)?;
                put_others(out, types, keys, numbers)
            }
        },
    }
}

/// A value that is no map.
fn put_scalar(out: &mut Vec<u8>, types: &[TypeName], value: Scalar) -> Result<(), AllocError>
    ensures { OnOk result ((t : Ty) → out.new.items ≡ out.old.items ++ value_text (types_in types.now) t (val_of value)) }
{
    match value {
        Scalar::Truth(b) => put_truth(out, b),
        Scalar::Number(z) => put_integer(out, z),
        Scalar::Element(t, z) => put_element(out, types, t, z),
    }
}

/// A value of this type.
#[cycle(put_value)]
pub fn put_value(
    out: &mut Vec<u8>,
    value: &Value,
    types: &[TypeName],
    t: TypeRef<'_>,
) -> Result<(), AllocError>
    ensures { OnOk result (out.new.items ≡ out.old.items ++ value_text (types_in types.now) (ref_of t.entry) (value_of value.now)) }
{
    match value {
        Value::Plain(x) => put_scalar(out, types, *x),
        Value::Map(entries, default) => {
            put_entries(out, entries, types, t)?;
            put_default(out, default, types, t)
        }
    }
}

/// The default of a map of this type, and the bracket that closes it.
#[cycle(put_value)]
fn put_default(
    out: &mut Vec<u8>,
    default: &Value,
    types: &[TypeName],
    t: TypeRef<'_>,
) -> Result<(), AllocError>
    ensures { OnOk result (out.new.items ≡ out.old.items ++ default_text (value_text (types_in types.now) (result_of (ref_of t.entry)) (value_of default.now))) }
{
    out.extend_from_slice(b"else ")?;
    put_value(out, default, types, behind(t))?;
    out.extend_from_slice(b"]")
}

/// An entry of a map of this type, and what stands between it and the next one.
#[cycle(put_value)]
fn put_entry(
    out: &mut Vec<u8>,
    entry: &Entry,
    types: &[TypeName],
    t: TypeRef<'_>,
) -> Result<(), AllocError>
    ensures { OnOk result (out.new.items ≡ out.old.items ++ entry_front (types_in types.now) (ref_of t.entry) entry.now) }
{
    put_index(out, types, indices(t), &entry.key)?;
    out.extend_from_slice(b" := ")?;
    put_value(out, &entry.value, types, behind(t))?;
    out.extend_from_slice(b", ")
}

/// The bracket in front of a map of this type, and its entries.
#[cycle(put_value)]
fn put_entries(
    out: &mut Vec<u8>,
    entries: &[Entry],
    types: &[TypeName],
    t: TypeRef<'_>,
) -> Result<(), AllocError>
    ensures { OnOk result (out.new.items ≡ out.old.items ++ (91 ∷ flat_map (entry_front (types_in types.now) (ref_of t.entry)) entries.now)) }
{
    out.extend_from_slice(b"[")?;
    for entry in entries {
        put_entry(out, entry, types, t)?;
    }
    Ok(())
}

/// A value of what a written type stands for.
pub fn put_written(
    out: &mut Vec<u8>,
    types: &[TypeName],
    ty: &WrittenType,
    value: &Value,
) -> Result<(), AllocError>
    ensures { OnOk result (out.new.items ≡ out.old.items ++ value_text (types_in types.now) (read_type (declared_types types.now) (type_of ty.now)) (value_of value.now)) }
{
    let alloc = *out.allocator();
    let kind = written_kind(alloc, types, ty)?;
    put_value(out, value, types, kind.as_ref())
}
