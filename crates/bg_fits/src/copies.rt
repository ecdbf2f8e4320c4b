//! Copies of types.
ghost use Rattle.std.specs.Prelude.{◌≡◌, ◌++◌, map, IfOk, OnOk};
ghost use Rattle.bg_ast.specs.Values as v;
ghost use Rattle.bg_kinds.specs.Views.{key_of, keys_of, ref_in, ref_of};

use bg_kinds::{IndexType, Keys, TypeRef, ValueType};
use std::alloc::{AllocError, Global};

fn keys_copied(alloc: Global, keys: &[IndexType]) -> Result<Keys, AllocError>
    ensures { IfOk result (λ made. keys_of made ≡ map key_of keys.now) }
{
    let mut made = Vec::new(alloc);
    made.extend_from_slice(keys)?;
    Ok(Keys { keys: made })
}

fn maps_copied(alloc: Global, maps: &[Keys]) -> Result<Vec<Keys>, AllocError>
    ensures { IfOk result (λ made. map keys_of made.items ≡ map keys_of maps.now) }
{
    let mut made = Vec::new(alloc);
    for k in maps {
        made.push(keys_copied(alloc, &k.keys)?)?;
    }
    Ok(made)
}

/// The same type. The time is linear in its brackets.
///
/// Only want of memory is an error.
pub fn kind_copied(alloc: Global, t: TypeRef<'_>) -> Result<ValueType, AllocError>
    ensures { IfOk result (λ made. ref_in made ≡ ref_of t.entry) }
{
    let maps = maps_copied(alloc, t.maps)?;
    Ok(ValueType { maps, base: t.base })
}

/// The type of maps with these index types and values of this type.
///
/// Only want of memory is an error.
pub fn map_kind(alloc: Global, keys: &Keys, t: TypeRef<'_>) -> Result<ValueType, AllocError>
    ensures { IfOk result (λ made. ref_in made ≡ v.MapTy (keys_of keys.now) (ref_of t.entry)) }
{
    let mut maps = Vec::new(alloc);
    maps.push(keys_copied(alloc, &keys.keys)?)?;
    let mut inner = maps_copied(alloc, t.maps)?;
    maps.append(&mut inner)?;
    Ok(ValueType { maps, base: t.base })
}

/// Adds the same types.
///
/// Only want of memory is an error.
pub fn push_copies(
    alloc: Global,
    kinds: &[ValueType],
    made: &mut Vec<ValueType>,
) -> Result<(), AllocError>
    ensures { OnOk result (map ref_in made.new.items ≡ map ref_in made.old.items ++ map ref_in kinds.now) }
{
    for t in kinds {
        made.push(kind_copied(alloc, t.as_ref())?)?;
    }
    Ok(())
}
