//! What written types stand for, whole.
ghost use Rattle.std.specs.Prelude.{◌≡◌, ◌++◌, List, suc, map, IfOk, OnOk};
ghost use Rattle.bg_ast.specs.Values as v;
ghost use Rattle.bg_ast.specs.Resolved as r;
ghost use Rattle.bg_ast.specs.Meaning as m;
ghost use Rattle.bg_ast.specs.Meaning.{type_in, map_type, keys_in, named_of, named_within, decl_of};
ghost use Rattle.bg_ast.specs.Views.{type_of, tys_of, indexed_of, index_view, type_name_of, declared_of};
ghost use Rattle.bg_sense.specs.Types.{types_of};
ghost use Rattle.bg_kinds.specs.Views.{key_of, keys_of, base_of, tower, ref_in};
ghost use Rattle.bg_fits.specs.Bases.{key_by, end_in};

use crate::types::base_within;
use bg_ast::resolved::{Declared, IndexTypes, TypeName, WrittenType};
use bg_kinds::{Base, IndexType, Keys, ValueType};
use std::alloc::{AllocError, Global};

/// How many brackets a type may have, synonyms unfolded: values of it nest so deep. As many as may be open in a text.
const MOST_BRACKETS: usize = 200;

/// What stands behind the brackets of a written type: a type that is no map, or a declared one.
#[derive(Clone, Copy)]
pub enum End {
    Plain(Base),
    Named(u32),
}

/// An index type; all that is no user type is `int`.
fn key_by(base: Option<Base>) -> IndexType
    ensures { key_of result ≡ key_by base }
{
    match base {
        Some(Base::User(u)) => IndexType::User(u),
        Some(Base::Int) | Some(Base::Bool) => IndexType::Int,
        None => IndexType::Int,
    }
}

/// A written index type, with synonyms unfolded at most so often.
fn index_within(types: &[TypeName], left: usize, ty: &WrittenType) -> IndexType
    ensures { key_of result ≡ m.key_of (type_in (named_within left (map type_name_of types.now)) (type_of ty.now)) }
{
    key_by(base_within(types, left, ty))
}

/// The index types of a bracket.
fn keys_within(
    alloc: Global,
    types: &[TypeName],
    left: usize,
    ts: &[WrittenType],
) -> Result<Keys, AllocError>
    ensures { IfOk result (λ made. keys_of made ≡ keys_in (named_within left (map type_name_of types.now)) (tys_of (map type_of ts.now))) }
{
    let mut keys = Vec::new(alloc);
    for t in ts {
        keys.push(index_within(types, left, t))?;
    }
    Ok(Keys { keys })
}

/// Adds a row of brackets.
fn push_brackets(
    alloc: Global,
    types: &[TypeName],
    left: usize,
    maps: &mut Vec<Keys>,
    brackets: &[IndexTypes],
) -> Result<(), AllocError>
    ensures { OnOk result ((t : v.Ty) → tower maps.new.items t ≡ tower maps.old.items (map_type (named_within left (map type_name_of types.now)) (indexed_of (map index_view brackets.now)) t)) }
{
    for bracket in brackets {
        if maps.len() >= MOST_BRACKETS {
            return Err(AllocError);
        }
        maps.push(keys_within(alloc, types, left, &bracket.indices)?)?;
    }
    Ok(())
}

/// Adds the brackets of a written type; what stands behind them.
#[cycle(pushed)]
fn push_type(
    alloc: Global,
    types: &[TypeName],
    left: usize,
    maps: &mut Vec<Keys>,
    ty: &WrittenType,
) -> Result<End, AllocError>
    ensures { IfOk result (λ end. tower maps.new.items (end_in (named_within left (map type_name_of types.now)) end) ≡ tower maps.old.items (type_in (named_within left (map type_name_of types.now)) (type_of ty.now))) }
{
    match ty {
        WrittenType::Bool(_) => Ok(End::Plain(Base::Bool)),
        WrittenType::Int(_) => Ok(End::Plain(Base::Int)),
        WrittenType::Parens(_, inner) => {
            let end = push_type(alloc, types, left, maps, inner)?;
            Ok(end)
        }
        WrittenType::Declared(_, k) => Ok(End::Named(*k)),
        WrittenType::Map(brackets, inner) => {
            push_brackets(alloc, types, left, maps, brackets)?;
            let end = push_type(alloc, types, left, maps, inner)?;
            Ok(end)
        }
    }
}

/// Adds the brackets of the type that is declared with this number; what stands behind them.
fn push_named(
    alloc: Global,
    types: &[TypeName],
    left: usize,
    maps: &mut Vec<Keys>,
    k: u32,
) -> Result<End, AllocError>
    ensures { IfOk result (λ end. tower maps.new.items (end_in (named_within left (map type_name_of types.now)) end) ≡ tower maps.old.items (named_within (suc left) (map type_name_of types.now) k)) }
{
    match types.get(k as usize) {
        None => Ok(End::Plain(Base::User(k))),
        Some(d) => match &d.synonym {
            None => Ok(End::Plain(Base::User(k))),
            Some(ty) => push_type(alloc, types, left, maps, ty),
        },
    }
}

/// The type behind brackets, where a declared one stands for itself.
fn stands(end: End) -> Base
    ensures { (ds : List r.TypeName) → base_of result ≡ end_in (named_within 0 ds) end }
{
    match end {
        End::Plain(base) => base,
        End::Named(k) => Base::User(k),
    }
}

/// Adds the brackets of what a written type stands for; the type behind them.
fn push_whole(
    alloc: Global,
    types: &[TypeName],
    maps: &mut Vec<Keys>,
    ty: &WrittenType,
) -> Result<Base, AllocError>
    ensures { IfOk result (λ base. tower maps.new.items (base_of base) ≡ tower maps.old.items (type_in (named_of (map type_name_of types.now)) (type_of ty.now))) }
{
    let count = types.len();
    let first = push_type(alloc, types, count + 1, maps, ty)?;
    let mut end = first;
    for i in 0..count + 1 {
        match end {
            End::Plain(base) => return Ok(base),
            End::Named(k) => {
                let next = push_named(alloc, types, count - i, maps, k)?;
                end = next;
            }
        }
    }
    Ok(stands(end))
}

/// What a written type stands for, where these types are declared.
///
/// Only want of memory is an error; more than `MOST_BRACKETS` brackets count as such.
pub fn written_kind(
    alloc: Global,
    types: &[TypeName],
    ty: &WrittenType,
) -> Result<ValueType, AllocError>
    ensures { IfOk result (λ made. ref_in made ≡ type_in (named_of (map type_name_of types.now)) (type_of ty.now)) }
{
    let mut maps = Vec::new(alloc);
    let base = push_whole(alloc, types, &mut maps, ty)?;
    Ok(ValueType { maps, base })
}

/// The types of what is declared, one for each written type, where these types are declared.
///
/// Only want of memory is an error.
pub fn written_kinds(
    alloc: Global,
    types: &[TypeName],
    written: &[WrittenType],
) -> Result<Vec<ValueType>, AllocError>
    ensures { IfOk result (λ made. map ref_in made.items ≡ map (type_in (named_of (map type_name_of types.now))) (map type_of written.now)) }
{
    let mut made = Vec::new(alloc);
    for ty in written {
        made.push(written_kind(alloc, types, ty)?)?;
    }
    Ok(made)
}

/// Adds the type of each variable, where these types are declared.
///
/// Only want of memory is an error.
pub fn push_kinds(
    alloc: Global,
    types: &[TypeName],
    declared: &[Declared],
    made: &mut Vec<ValueType>,
) -> Result<(), AllocError>
    ensures { OnOk result (map ref_in made.new.items ≡ map ref_in made.old.items ++ types_of (map (decl_of (named_of (map type_name_of types.now))) (map declared_of declared.now))) }
{
    for d in declared {
        made.push(written_kind(alloc, types, &d.ty)?)?;
    }
    Ok(())
}
