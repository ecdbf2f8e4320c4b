//! Values as a certificate has them.
ghost use Rattle.std.specs.Prelude.{◌≡◌, map, slice_get, IfOk};
ghost use Rattle.bg_ast.specs.Values.{Ty};
ghost use Rattle.bg_ast.specs.Views.{type_name_of};
ghost use Rattle.bg_kinds.specs.Views.{key_of, ref_in, ref_of};
ghost use Rattle.bg_scalar.specs.Values as scalar;
ghost use Rattle.bg_scalar.specs.Values.{val_of};
ghost use Rattle.bg_scalar.specs.Maps.{entry_in};
ghost use Rattle.bg_scalar.specs.Views.{vals_in};
ghost use Rattle.bg_certtext.specs.Views as text;
ghost use Rattle.bg_certtext.specs.Views.{slot_of};
ghost use Rattle.bg_certify.specs.Given.{name_or_none, type_names, keys_in, key_at, part_of, index_of, value_of, slot_for, values_of};

use bg_ast::resolved::TypeName;
use bg_certtext::{Part, Slot, Value};
use bg_confirm::{inside, type_at};
use bg_kinds::{IndexType, TypeRef, ValueType};
use bg_scalar::{Entry, Scalar};
use std::alloc::{AllocError, Global};

/// The name of the type with this number; nothing where there is none.
fn name_at(types: &[TypeName], t: u32) -> &[u8]
    ensures { result.now ≡ name_or_none (slice_get (type_names (map type_name_of types.now)) t) }
{
    match types.get(t as usize) {
        None => &[],
        Some(d) => d.name.text.as_slice(),
    }
}

/// A part of an index.
fn part_of(types: &[TypeName], key: IndexType, z: i128) -> Part<'_>
    ensures { text.part_of result ≡ part_of (type_names (map type_name_of types.entry.now)) (key_of key) z }
{
    match key {
        IndexType::Int => Part::Number(z),
        IndexType::User(k) => Part::Element(name_at(types, k), z),
    }
}

/// The index type at this place; whole numbers where there is none.
fn key_at(keys: &[IndexType], i: usize) -> IndexType
    ensures { key_of result ≡ key_at (map key_of keys.now) i }
{
    match keys.get(i) {
        Some(k) => *k,
        None => IndexType::Int,
    }
}

/// An index of these types.
fn index_of<'p>(
    alloc: Global,
    types: &'p [TypeName],
    keys: &[IndexType],
    key: &[i128],
) -> Result<Vec<Part<'p>>, AllocError>
    ensures { IfOk result (λ made. map text.part_of made.items ≡ index_of (type_names (map type_name_of types.entry.now)) (map key_of keys.now) key.now) }
{
    let mut made = Vec::new(alloc);
    for i in 0..key.len() {
        let part = part_of(types, key_at(keys, i), key[i]);
        made.push(part)?;
    }
    Ok(made)
}

/// The index types of a map type; none of another.
fn keys_in(t: TypeRef<'_>) -> &[IndexType]
    ensures { map key_of result.now ≡ keys_in (ref_of t.entry) }
{
    match t.maps {
        [] => &[],
        [keys, ..] => keys.keys.as_slice(),
    }
}

/// A value that is no map.
fn plain_of(types: &[TypeName], x: Scalar) -> Value<'_>
    ensures { (t : Ty) → text.value_of result ≡ value_of (type_names (map type_name_of types.entry.now)) t (val_of x) }
{
    match x {
        Scalar::Truth(b) => Value::Truth(b),
        Scalar::Number(z) => Value::Number(z),
        Scalar::Element(t, z) => Value::Element(name_at(types, t), z),
    }
}

/// A value of a type.
#[tactic(auto, using(crate::proofs::Slots::map_given))]
#[cycle(value_of)]
pub(crate) fn value_of<'p>(
    alloc: Global,
    types: &'p [TypeName],
    t: TypeRef<'_>,
    x: &bg_scalar::Value,
) -> Result<Value<'p>, AllocError>
    ensures { IfOk result (λ made. text.value_of made ≡ value_of (type_names (map type_name_of types.entry.now)) (ref_of t.entry) (scalar.value_of x.now)) }
{
    match x {
        bg_scalar::Value::Plain(s) => Ok(plain_of(types, *s)),
        bg_scalar::Value::Map(entries, default) => {
            let inner = inside(t);
            let slots = slots_of(alloc, types, keys_in(t), inner, entries)?;
            let default = value_of(alloc, types, inner, default)?;
            Ok(Value::Map(slots, Box::new(alloc, default)?))
        }
    }
}

/// Entries of a map with these index types, and of values of a type.
#[cycle(value_of)]
fn slots_of<'p>(
    alloc: Global,
    types: &'p [TypeName],
    keys: &[IndexType],
    t: TypeRef<'_>,
    entries: &[Entry],
) -> Result<Vec<Slot<'p>>, AllocError>
    ensures { IfOk result (λ made. map slot_of made.items ≡ map (slot_for (type_names (map type_name_of types.entry.now)) (map key_of keys.now) (ref_of t.entry)) (map entry_in entries.now)) }
{
    let mut made = Vec::new(alloc);
    for e in entries {
        let index = index_of(alloc, types, keys, &e.key)?;
        let value = value_of(alloc, types, t, &e.value)?;
        made.push(Slot { index, value })?;
    }
    Ok(made)
}

/// Values of these types, one by one.
pub(crate) fn values_of<'p>(
    alloc: Global,
    types: &'p [TypeName],
    kinds: &[ValueType],
    values: &[bg_scalar::Value],
) -> Result<Vec<Value<'p>>, AllocError>
    ensures { IfOk result (λ made. map text.value_of made.items ≡ values_of (type_names (map type_name_of types.entry.now)) (map ref_in kinds.now) (vals_in values.now)) }
{
    let mut made = Vec::new(alloc);
    for k in 0..values.len() {
        let value = value_of(alloc, types, type_at(kinds, k), &values[k])?;
        made.push(value)?;
    }
    Ok(made)
}
