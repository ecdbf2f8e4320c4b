//! What stands behind numbers: a map is what the selects from its number say, the first at an index, and its type's default.
ghost use Rattle.std.specs.Prelude.{◌≡◌, List, [], ◌∷◌, ◌++◌, Some, None, length, slice_get, IfOk, OnOk, MatchOption};
ghost use Rattle.bg_ast.specs.Values.{Ty, MapTy, Default, truth_of};
ghost use Rattle.bg_ast.specs.Syntax.{Fun};
ghost use Rattle.bg_sense.specs.Eval.{default_for};
ghost use Rattle.bg_terms.specs.Built.{built};
ghost use Rattle.bg_kinds.specs.Views.{base_of, keys_of, ref_of};
ghost use Rattle.bg_term_table.specs.Views.{terms_in};
ghost use Rattle.bg_scalar.specs.declared.scalar.Scalar as kept;
ghost use Rattle.bg_scalar.specs.declared.scalar.Scalar.TheVariants.{Number, Element};
ghost use Rattle.bg_scalar.specs.Values.{val_of, value_of};
ghost use Rattle.bg_wanted.specs.Scalars.{scalars_in, part_of, key_of};
ghost use Rattle.bg_wanted.specs.Rows.{row_of};
ghost use Rattle.bg_wanted.specs.Asked.{IsLooked, looked_rows};
ghost use Rattle.bg_wanted.specs.Behind.{behind_base, places_in, parts_in, parts_there, put_of, entries_of};

use crate::class::found;
use crate::looked::Looked;
use crate::maps::places;
use crate::row::Row;
use bg_kinds::{Base, Keys, TypeRef};
use bg_scalar::{Entry, Scalar, Value, update};
use std::alloc::{AllocError, Global};

/// Entries of a map, and its default.
#[derive(Drop)]
struct Entries {
    entries: Vec<Entry>,
    default: Value,
}

/// The number that a scalar is; 0 for a truth value.
fn number_in(s: Scalar) -> i128
    ensures { result ≡ part_of s }
{
    match s {
        Scalar::Truth(_) => 0,
        Scalar::Number(z) => z,
        Scalar::Element(_, z) => z,
    }
}

/// The truth value that a scalar is; false for a number.
fn truth_in(s: Scalar) -> bool
    ensures { result ≡ truth_of (val_of s) }
{
    match s {
        Scalar::Truth(b) => b,
        Scalar::Number(_) => false,
        Scalar::Element(_, _) => false,
    }
}

/// The number that a scalar is, as one.
fn as_number(s: Scalar) -> Scalar
    ensures { result ≡ Number (part_of s) }
{
    match s {
        Scalar::Truth(_) => Scalar::Number(0),
        Scalar::Number(z) => Scalar::Number(z),
        Scalar::Element(_, z) => Scalar::Number(z),
    }
}

/// The element of a user type with that number.
fn as_element(k: u32, s: Scalar) -> Scalar
    ensures { result ≡ Element k (part_of s) }
{
    match s {
        Scalar::Truth(_) => Scalar::Element(k, 0),
        Scalar::Number(z) => Scalar::Element(k, z),
        Scalar::Element(_, z) => Scalar::Element(k, z),
    }
}

/// What stands behind a scalar of a type that is no map.
fn plain(base: Base, s: Scalar) -> Scalar
    ensures { val_of result ≡ behind_base (base_of base) (val_of s) }
{
    match base {
        Base::Int => as_number(s),
        Base::Bool => Scalar::Truth(truth_in(s)),
        Base::User(k) => as_element(k, s),
    }
}

/// A number more.
fn put_part(made: &mut Vec<i128>, z: i128) -> Result<(), AllocError>
    ensures { OnOk result (made.new.items ≡ made.old.items ++ z ∷ []) }
{
    made.push(z)?;
    Ok(())
}

/// An index: the number of each part.
fn index(alloc: Global, scalars: &[Scalar]) -> Result<Vec<i128>, AllocError>
    ensures { IfOk result (λ made. made.items ≡ key_of scalars.now) }
{
    let mut made = Vec::new(alloc);
    let mut j = 0;
    while j < scalars.len() {
        let z = number_in(scalars[j]);
        put_part(&mut made, z)?;
        j += 1;
    }
    Ok(made)
}

/// Some value of a type, the same as everywhere.
pub fn default_value(alloc: Global, ty: TypeRef<'_>) -> Result<Value, AllocError>
    ensures { IfOk result (λ made. value_of made ≡ default_for (ref_of ty.entry)) }
{
    let mut made = Value::Plain(plain(ty.base, Scalar::Number(0)));
    let mut k = 0;
    while k < ty.maps.len() {
        let inner = Box::new(alloc, made)?;
        made = Value::Map(Vec::new(alloc), inner);
        k += 1;
    }
    Ok(made)
}

/// The places of the selects from a map of this type with this scalar.
fn places_from<'a>(looked: Looked<'a>, keys: &Keys, gives: TypeRef<'_>, scalar: Scalar) -> &'a [u32]
    ensures { (fs : List Fun) (incs : List Ty) (values : List kept.Scalar) → IsLooked fs incs values looked.entry → result.now ≡ places_in (terms_in fs looked.entry.terms.now) (keys_of keys.now) (ref_of gives.entry) scalar (looked_rows looked.entry) }
{
    match found(looked.met, looked.terms, keys, gives) {
        None => &[],
        Some(maps) => places(looked.selects, (maps, scalar)),
    }
}

/// The index of a select, and its scalar.
fn parts_of(row: &Row) -> Option<(&[Scalar], Scalar)>
    ensures { MatchOption result (parts_in (row_of row.now) ≡ None) (λ p. parts_in (row_of row.now) ≡ Some (p.0.now, p.1)) }
{
    match row.args.split_first() {
        None => None,
        Some((_, parts)) => Some((parts, row.value)),
    }
}

/// The index at which the row at a place selects, and its scalar, if it is one.
fn parts_at(looked: Looked<'_>, a: u32) -> Option<(&[Scalar], Scalar)>
    ensures { MatchOption result (parts_there (slice_get (looked_rows looked.entry) a) ≡ None) (λ p. parts_there (slice_get (looked_rows looked.entry) a) ≡ Some (p.0.now, p.1)) }
{
    match looked.rows.get(a as usize) {
        None => None,
        Some(row) => parts_of(row),
    }
}

/// No entries of a map to values of this type.
fn no_entries(alloc: Global, gives: TypeRef<'_>) -> Result<Entries, AllocError>
    ensures { IfOk result (λ made. entries_of made ≡ Default (default_for (ref_of gives.entry))) }
{
    let default = default_value(alloc, gives)?;
    Ok(Entries {
        entries: Vec::new(alloc),
        default,
    })
}

/// The map with these entries and this default.
fn as_map(alloc: Global, map: Entries) -> Result<Value, AllocError>
    ensures { IfOk result (λ made. value_of made ≡ entries_of map) }
{
    let default = Box::new(alloc, map.default)?;
    Ok(Value::Map(map.entries, default))
}

/// The entry of the select at a place, in a map to values of a type.
#[cycle(built)]
fn put_entry(
    alloc: Global,
    looked: Looked<'_>,
    map: &mut Entries,
    gives: TypeRef<'_>,
    a: u32,
) -> Result<(), AllocError>
    ensures { OnOk result ((fs : List Fun) (incs : List Ty) (values : List kept.Scalar) → IsLooked fs incs values looked.entry → entries_of map.new ≡ put_of (scalars_in values) (length incs) (terms_in fs looked.entry.terms.now) (ref_of gives.entry) (looked_rows looked.entry) a (entries_of map.old)) }
{
    match parts_at(looked, a) {
        None => Ok(()),
        Some((parts, scalar)) => {
            let key = index(alloc, parts)?;
            let value = built(alloc, looked, gives, scalar)?;
            update(&mut map.entries, &map.default, key, value)?;
            Ok(())
        }
    }
}

/// The map with this scalar, by the rows of a leaf. The last select at an index comes first, so the first one says its value.
#[cycle(built)]
pub fn built_map(
    alloc: Global,
    looked: Looked<'_>,
    keys: &Keys,
    gives: TypeRef<'_>,
    scalar: Scalar,
) -> Result<Value, AllocError>
    ensures { IfOk result (λ made. (fs : List Fun) (incs : List Ty) (values : List kept.Scalar) → IsLooked fs incs values looked.entry → value_of made ≡ built (scalars_in values) (length incs) (terms_in fs looked.entry.terms.now) (MapTy (keys_of keys.now) (ref_of gives.entry)) (val_of scalar)) }
{
    let all = places_from(looked, keys, gives, as_number(scalar));
    let mut map = no_entries(alloc, gives)?;
    let mut i = all.len();
    while i > 0 {
        i -= 1;
        put_entry(alloc, looked, &mut map, gives, all[i])?;
    }
    as_map(alloc, map)
}

/// What stands behind a scalar of a type, by the rows of a leaf.
#[cycle(built)]
pub fn built(
    alloc: Global,
    looked: Looked<'_>,
    ty: TypeRef<'_>,
    scalar: Scalar,
) -> Result<Value, AllocError>
    ensures { IfOk result (λ made. (fs : List Fun) (incs : List Ty) (values : List kept.Scalar) → IsLooked fs incs values looked.entry → value_of made ≡ built (scalars_in values) (length incs) (terms_in fs looked.entry.terms.now) (ref_of ty.entry) (val_of scalar)) }
{
    match ty.maps.split_first() {
        None => Ok(Value::Plain(plain(ty.base, scalar))),
        Some((keys, rest)) => {
            let gives = TypeRef {
                maps: rest,
                base: ty.base,
            };
            built_map(alloc, looked, keys, gives, scalar)
        }
    }
}
