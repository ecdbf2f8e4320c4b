//! Copies of types.
ghost use Rattle.std.specs.Prelude.{◌≡◌, map, IfOk};
ghost use Rattle.bg_kinds.specs.Views.{key_of, keys_of, ref_in, ref_of};

use bg_kinds::{IndexType, Keys, TypeRef, ValueType};
use std::alloc::{AllocError, Global};

/// The same index types.
pub fn keys_copied(alloc: Global, keys: &[IndexType]) -> Result<Keys, AllocError>
    ensures { IfOk result (λ made. keys_of made ≡ map key_of keys.now) }
{
    let mut made = Vec::new(alloc);
    made.extend_from_slice(keys)?;
    Ok(Keys { keys: made })
}

fn maps_copied(alloc: Global, maps: &[Keys]) -> Result<Vec<Keys>, AllocError>
    ensures { IfOk result (λ made. map keys_of made.items ≡ map keys_of maps.now) }
{
    let mut made = Vec::new(alloc);
    for k in maps {
        made.push(keys_copied(alloc, &k.keys)?)?;
    }
    Ok(made)
}

/// The same type.
pub fn type_copied(alloc: Global, t: TypeRef<'_>) -> Result<ValueType, AllocError>
    ensures { IfOk result (λ made. ref_in made ≡ ref_of t.entry) }
{
    let maps = maps_copied(alloc, t.maps)?;
    Ok(ValueType { maps, base: t.base })
}
