//! The values of constants as those of variables.
ghost use Rattle.std.specs.Prelude.{◌≡◌, map, slice_get, IfOk};
ghost use Rattle.bg_ast.specs.Values.{result_of};
ghost use Rattle.bg_ast.specs.Meaning.{meaning_of};
ghost use Rattle.bg_ast.specs.Views.{type_name_of, program_of};
ghost use Rattle.bg_sense.specs.Types.{types_of};
ghost use Rattle.bg_kinds.specs.Views.{key_of, base_of, ref_in, ref_of};
ghost use Rattle.bg_replay.specs.Holds.{type_at};
ghost use Rattle.bg_certtext.specs.Views.{part_of, value_of, slot_of, given_of};
ghost use Rattle.bg_confirm.specs.Typed.{name_of, part_fits, index_fits, value_fits, slots_fit};
ghost use Rattle.bg_scalar.specs.Values as scalar;
ghost use Rattle.bg_scalar.specs.Values.{val_of};
ghost use Rattle.bg_scalar.specs.Maps.{entry_in};
ghost use Rattle.bg_scalar.specs.Views.{vals_in};
ghost use Rattle.bg_confirm.specs.Met.{element_in, number_at, val_for, entry_for, vals_for};
ghost use Rattle.bg_confirm.specs.Pairs.{each_fits};
ghost use Rattle.bg_confirm.specs.Named.{given_fits};

use bg_ast::resolved::{Resolved, TypeName};
use bg_certtext::{Given, Part, Slot, Value};
use bg_fits::{base_in, push_kinds};
use bg_kinds::{Base, IndexType, TypeRef, ValueType, plain};
use bg_scalar::Scalar;
use std::alloc::{AllocError, Global};

/// The name of the type that is declared with this number; nothing where there is none.
fn name_of(types: &[TypeName], k: u32) -> &[u8]
    ensures { result.now ≡ name_of (slice_get (map type_name_of types.now) k) }
{
    match types.get(k as usize) {
        None => &[],
        Some(d) => d.name.text.as_slice(),
    }
}

/// Whether a part of an index is of an index type; an element has the name of its type.
fn part_fits(types: &[TypeName], key: IndexType, part: Part<'_>) -> bool
    ensures { result ≡ part_fits (map type_name_of types.now) (key_of key) (part_of part.entry) }
{
    match (key, part) {
        (IndexType::Int, Part::Number(_)) => true,
        (IndexType::User(k), Part::Element(name, _)) => name_of(types, k) == name,
        _ => false,
    }
}

/// Whether parts are those of an index of these types.
#[tactic(auto, using(crate::proofs::Slots::indices_differ))]
fn index_fits(types: &[TypeName], keys: &[IndexType], index: &[Part<'_>]) -> bool
    ensures { result ≡ index_fits (map type_name_of types.now) (map key_of keys.now) (map part_of index.now) }
{
    if keys.len() != index.len() {
        return false;
    }
    for i in 0..keys.len() {
        if !part_fits(types, keys[i], index[i]) {
            return false;
        }
    }
    true
}

#[tactic(auto, using(crate::proofs::Slots::base_no_map))]
fn fits_base(types: &[TypeName], base: Base, value: &Value<'_>) -> bool
    ensures { result ≡ value_fits (map type_name_of types.now) (base_of base) (value_of value.now) }
{
    match value {
        Value::Truth(_) => matches!(base, Base::Bool),
        Value::Number(_) => matches!(base, Base::Int),
        Value::Element(name, _) => match base {
            Base::Bool => false,
            Base::Int => false,
            Base::User(k) => name_of(types, k) == *name,
        },
        Value::Map(_, _) => false,
    }
}

/// Whether a value is one of a type; an element has the name of its type.
#[cycle(fits)]
pub(crate) fn fits(types: &[TypeName], t: TypeRef<'_>, value: &Value<'_>) -> bool
    ensures { result ≡ value_fits (map type_name_of types.now) (ref_of t.entry) (value_of value.now) }
{
    match t.maps {
        [] => fits_base(types, t.base, value),
        [keys, maps @ ..] => {
            let inner = TypeRef { maps, base: t.base };
            match value {
                Value::Truth(_) => false,
                Value::Number(_) => false,
                Value::Element(_, _) => false,
                Value::Map(slots, default) => {
                    slots_fit(types, &keys.keys, inner, slots) && fits(types, inner, default)
                }
            }
        }
    }
}

/// Whether the indices of slots are of these types, their values of this one.
#[cycle(fits)]
fn slots_fit(types: &[TypeName], keys: &[IndexType], t: TypeRef<'_>, slots: &[Slot<'_>]) -> bool
    ensures { result ≡ slots_fit (map type_name_of types.now) (map key_of keys.now) (ref_of t.entry) (map slot_of slots.now) }
{
    for slot in slots {
        if !(index_fits(types, keys, &slot.index) && fits(types, t, &slot.value)) {
            return false;
        }
    }
    true
}

fn element_of(base: Base, z: i128) -> Scalar
    ensures { val_of result ≡ element_in (base_of base) z }
{
    match base {
        Base::Bool => Scalar::Number(z),
        Base::Int => Scalar::Number(z),
        Base::User(k) => Scalar::Element(k, z),
    }
}

fn element_in(t: TypeRef<'_>, z: i128) -> Scalar
    ensures { val_of result ≡ element_in (ref_of t.entry) z }
{
    match base_in(t) {
        None => Scalar::Number(z),
        Some(base) => element_of(base, z),
    }
}

/// The type of a map's values; the type itself where it is no map.
#[tactic(auto, using(crate::proofs::Slots::base_result))]
pub fn inside(t: TypeRef<'_>) -> TypeRef<'_>
    ensures { ref_of result ≡ result_of (ref_of t.entry) }
{
    match t.maps {
        [] => t,
        [_, maps @ ..] => TypeRef { maps, base: t.base },
    }
}

fn number_at(part: Part<'_>) -> i128
    ensures { result ≡ number_at (part_of part.entry) }
{
    match part {
        Part::Number(z) => z,
        Part::Element(_, z) => z,
    }
}

/// The numbers that stand for the parts of an index.
fn numbers(alloc: Global, index: &[Part<'_>]) -> Result<Vec<i128>, AllocError>
    ensures { IfOk result (λ made. made.items ≡ map number_at (map part_of index.now)) }
{
    let mut made = Vec::new(alloc);
    for part in index {
        made.push(number_at(*part))?;
    }
    Ok(made)
}

/// A value as one of a type.
#[tactic(auto, using(crate::proofs::Slots::map_for))]
#[cycle(value_in)]
pub(crate) fn value_in(
    alloc: Global,
    t: TypeRef<'_>,
    value: &Value<'_>,
) -> Result<bg_scalar::Value, AllocError>
    ensures { IfOk result (λ made. scalar.value_of made ≡ val_for (ref_of t.entry) (value_of value.now)) }
{
    match value {
        Value::Truth(b) => Ok(bg_scalar::Value::Plain(Scalar::Truth(*b))),
        Value::Number(z) => Ok(bg_scalar::Value::Plain(Scalar::Number(*z))),
        Value::Element(_, z) => Ok(bg_scalar::Value::Plain(element_in(t, *z))),
        Value::Map(slots, default) => {
            let inner = inside(t);
            let entries = entries_in(alloc, inner, slots)?;
            let default = value_in(alloc, inner, default)?;
            Ok(bg_scalar::Value::Map(entries, Box::new(alloc, default)?))
        }
    }
}

/// Slots as entries of a map that gives values of a type.
#[cycle(value_in)]
fn entries_in(
    alloc: Global,
    t: TypeRef<'_>,
    slots: &[Slot<'_>],
) -> Result<Vec<bg_scalar::Entry>, AllocError>
    ensures { IfOk result (λ made. map entry_in made.items ≡ map (entry_for (ref_of t.entry)) (map slot_of slots.now)) }
{
    let mut made = Vec::new(alloc);
    for slot in slots {
        let key = numbers(alloc, &slot.index)?;
        let value = value_in(alloc, t, &slot.value)?;
        made.push(bg_scalar::Entry { key, value })?;
    }
    Ok(made)
}

/// The type at this place; whole numbers where there is none.
pub fn type_at(kinds: &[ValueType], k: usize) -> TypeRef<'_>
    ensures { ref_of result ≡ type_at (map ref_in kinds.now) k }
{
    match kinds.get(k) {
        Some(t) => t.as_ref(),
        None => plain(Base::Int),
    }
}

/// The values that are given, in order, as those of variables of these types.
pub fn values_in(
    alloc: Global,
    kinds: &[ValueType],
    given: &[Given],
) -> Result<Vec<bg_scalar::Value>, AllocError>
    ensures { IfOk result (λ made. vals_in made.items ≡ vals_for (map ref_in kinds.now) (map (λ g. g.value) (map given_of given.now))) }
{
    let mut made = Vec::new(alloc);
    for k in 0..given.len() {
        let value = value_in(alloc, type_at(kinds, k), &given[k].value)?;
        made.push(value)?;
    }
    Ok(made)
}

/// The type of each global.
pub fn kinds_in(alloc: Global, program: &Resolved) -> Result<Vec<ValueType>, AllocError>
    ensures { IfOk result (λ made. map ref_in made.items ≡ types_of (meaning_of (program_of program.now)).globals) }
{
    let mut made = Vec::new(alloc);
    push_kinds(alloc, &program.types, &program.globals, &mut made)?;
    Ok(made)
}

fn is_given(types: &[TypeName], t: TypeRef<'_>, given: &Given) -> bool
    ensures { result ≡ given_fits (map type_name_of types.now) (ref_of t.entry) given.now }
{
    fits(types, t, &given.value)
}

/// Whether variables of these types may have the values that are given.
pub fn are_given(types: &[TypeName], kinds: &[ValueType], given: &[Given]) -> bool
    ensures { result ≡ each_fits (given_fits (map type_name_of types.now)) (map ref_in kinds.now) given.now }
{
    if kinds.len() != given.len() {
        return false;
    }
    for k in 0..given.len() {
        if !is_given(types, kinds[k].as_ref(), &given[k]) {
            return false;
        }
    }
    true
}
