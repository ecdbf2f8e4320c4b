//! How types are written.
ghost use Rattle.std.specs.Prelude.{◌≡◌, ◌++◌, false, map, OnOk};
ghost use Rattle.bg_ast.specs.Views.{type_name_of};
ghost use Rattle.bg_kinds.specs.Texts.{name_text, key_text, gap_text, keys_from, keys_text, maps_text, type_text};
ghost use Rattle.bg_kinds.specs.Views.{key_of, base_of, keys_of, ref_in};

use crate::kinds::{Base, IndexType, Keys, ValueType};
use bg_ast::resolved::TypeName;
use std::alloc::AllocError;

/// Adds the name of a declared type.
fn push_name(out: &mut Vec<u8>, types: &[TypeName], k: u32) -> Result<(), AllocError>
    ensures { OnOk result (out.new.items ≡ out.old.items ++ name_text (map type_name_of types.now) k) }
{
    match types.get(k as usize) {
        None => Ok(()),
        Some(d) => {
            out.extend_from_slice(&d.name.text)?;
            Ok(())
        }
    }
}

fn push_key(out: &mut Vec<u8>, types: &[TypeName], key: IndexType) -> Result<(), AllocError>
    ensures { OnOk result (out.new.items ≡ out.old.items ++ key_text (map type_name_of types.now) (key_of key)) }
{
    match key {
        IndexType::Int => {
            out.extend_from_slice(b"int")?;
            Ok(())
        }
        IndexType::User(k) => {
            push_name(out, types, k)?;
            Ok(())
        }
    }
}

fn push_base(out: &mut Vec<u8>, types: &[TypeName], base: Base) -> Result<(), AllocError>
    ensures { OnOk result (out.new.items ≡ out.old.items ++ type_text (map type_name_of types.now) (base_of base)) }
{
    match base {
        Base::Int => {
            out.extend_from_slice(b"int")?;
            Ok(())
        }
        Base::Bool => {
            out.extend_from_slice(b"bool")?;
            Ok(())
        }
        Base::User(k) => {
            push_name(out, types, k)?;
            Ok(())
        }
    }
}

fn push_gap(out: &mut Vec<u8>, behind: bool) -> Result<(), AllocError>
    ensures { OnOk result (out.new.items ≡ out.old.items ++ gap_text behind) }
{
    if behind {
        out.extend_from_slice(b",")?;
    }
    Ok(())
}

fn push_next(
    out: &mut Vec<u8>,
    types: &[TypeName],
    behind: bool,
    key: IndexType,
) -> Result<(), AllocError>
    ensures { OnOk result (out.new.items ≡ out.old.items ++ (gap_text behind ++ key_text (map type_name_of types.now) (key_of key))) }
{
    push_gap(out, behind)?;
    push_key(out, types, key)?;
    Ok(())
}

fn push_keys(out: &mut Vec<u8>, types: &[TypeName], keys: &[IndexType]) -> Result<(), AllocError>
    ensures { OnOk result (out.new.items ≡ out.old.items ++ keys_from (map type_name_of types.now) false (map key_of keys.now)) }
{
    let mut behind = false;
    for key in keys {
        push_next(out, types, behind, *key)?;
        behind = true;
    }
    Ok(())
}

fn push_bracket(out: &mut Vec<u8>, types: &[TypeName], keys: &Keys) -> Result<(), AllocError>
    ensures { OnOk result (out.new.items ≡ out.old.items ++ keys_text (map type_name_of types.now) (keys_of keys.now)) }
{
    out.extend_from_slice(b"[")?;
    push_keys(out, types, &keys.keys)?;
    out.extend_from_slice(b"]")?;
    Ok(())
}

fn push_maps(out: &mut Vec<u8>, types: &[TypeName], maps: &[Keys]) -> Result<(), AllocError>
    ensures { OnOk result (out.new.items ≡ out.old.items ++ maps_text (map type_name_of types.now) (map keys_of maps.now)) }
{
    for keys in maps {
        push_bracket(out, types, keys)?;
    }
    Ok(())
}

/// Adds a type as it is written in an error's line: `int`, `bool`, its name, or `[T1,T2]T`. Only want of memory is an error.
pub fn push_type(out: &mut Vec<u8>, types: &[TypeName], t: &ValueType) -> Result<(), AllocError>
    ensures { OnOk result (out.new.items ≡ out.old.items ++ type_text (map type_name_of types.now) (ref_in t.now)) }
{
    push_maps(out, types, &t.maps)?;
    push_base(out, types, t.base)?;
    Ok(())
}
