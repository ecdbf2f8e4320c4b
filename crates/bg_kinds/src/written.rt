//! What written types stand for.
ghost use Rattle.std.specs.Prelude.{◌≡◌, ◌++◌, [], map, IfOk, OnOk, Some, None};
ghost use Rattle.bg_ast.specs.Views.{type_of, tys_of, indexed_of, index_view};
ghost use Rattle.bg_kinds.specs.Faults.{first_of};
ghost use Rattle.bg_kinds.specs.Kinds.{key_in, kind_in, keys_in, start_in, start_of, index_fault, type_faults, indices_faults, types_faults, named_by};
ghost use Rattle.bg_text.specs.Views.{option_of};
ghost use Rattle.bg_kinds.specs.Rows.{maps_before, maps_of, rows_in, keys_read, rows_read, both_keys};
ghost use Rattle.bg_kinds.specs.FaultViews.{best_of};
ghost use Rattle.bg_kinds.specs.Views.{key_of, keys_of, ref_in, tower, base_of};
ghost use Rattle.bg_kinds.specs.KindViews.{kind_in_of, kinds_in};

use crate::faults::{Found, note};
use crate::kinds::{Base, IndexType, Keys, ValueType};
use bg_ast::resolved::{IndexTypes, WrittenType};
use bg_base::Pos;
use std::alloc::{AllocError, Global};

fn copy_keys(alloc: Global, keys: &[IndexType]) -> Result<Keys, AllocError>
    ensures { IfOk result (λ made. keys_of made ≡ map key_of keys.now) }
{
    let mut made = Vec::new(alloc);
    made.extend_from_slice(keys)?;
    Ok(Keys { keys: made })
}

pub fn copy_maps(alloc: Global, maps: &[Keys]) -> Result<Vec<Keys>, AllocError>
    ensures { IfOk result (λ made. map keys_of made.items ≡ map keys_of maps.now) }
{
    let mut made = Vec::new(alloc);
    for k in maps {
        made.push(copy_keys(alloc, &k.keys)?)?;
    }
    Ok(made)
}

/// A copy of a type.
fn copy_type(alloc: Global, t: &ValueType) -> Result<ValueType, AllocError>
    ensures { IfOk result (λ made. ref_in made ≡ ref_in t.now) }
{
    let maps = copy_maps(alloc, &t.maps)?;
    Ok(ValueType { maps, base: t.base })
}

fn copy_kind(alloc: Global, kind: &Option<ValueType>) -> Result<Option<ValueType>, AllocError>
    ensures { IfOk result (λ made. kind_in_of made ≡ kind_in_of kind.now) }
{
    match kind {
        None => Ok(None),
        Some(t) => Ok(Some(copy_type(alloc, t)?)),
    }
}

/// A type that is no map.
pub fn based(alloc: Global, base: Base) -> Option<ValueType>
    ensures { kind_in_of result ≡ Some (base_of base) }
{
    Some(ValueType {
        maps: Vec::new(alloc),
        base,
    })
}

/// What a declared type stands for, by this table.
fn named_kind(
    alloc: Global,
    named: &[Option<ValueType>],
    k: u32,
) -> Result<Option<ValueType>, AllocError>
    ensures { IfOk result (λ made. kind_in_of made ≡ named_by (kinds_in named.now) k) }
{
    match named.get(k as usize) {
        None => Ok(based(alloc, Base::User(k))),
        Some(kind) => Ok(copy_kind(alloc, kind)?),
    }
}

/// Where a row of brackets begins, before what begins at `p`.
fn start_in(brackets: &[IndexTypes], p: Pos) -> Pos
    ensures { result ≡ start_in (indexed_of (map index_view brackets.now)) p }
{
    match brackets.first() {
        None => p,
        Some(bracket) => bracket.pos,
    }
}

/// Where a type begins.
fn start(t: &WrittenType) -> Pos
    ensures { result ≡ start_of (type_of t.now) }
{
    match t {
        WrittenType::Int(p) | WrittenType::Bool(p) => *p,
        WrittenType::Declared(p, _) => *p,
        WrittenType::Parens(p, _) => *p,
        WrittenType::Map(brackets, t) => start_in(brackets, start(t)),
    }
}

fn index_of_base<'a>(best: &mut Option<Found<'a>>, p: Pos, base: Base) -> Option<IndexType>
    ensures best { best_of best.new ≡ first_of (best_of best.old) (index_fault p (Some (base_of base))) }
    ensures key { option_of key_of result ≡ key_in (Some (base_of base)) }
{
    match base {
        Base::Int => Some(IndexType::Int),
        Base::User(k) => Some(IndexType::User(k)),
        Base::Bool => {
            note(best, Found::MapIndex(p));
            None
        }
    }
}

/// An index type; one that is none is noted.
fn index_of<'a>(best: &mut Option<Found<'a>>, p: Pos, kind: &Option<ValueType>) -> Option<IndexType>
    ensures best { best_of best.new ≡ first_of (best_of best.old) (index_fault p (kind_in_of kind.now)) }
    ensures key { option_of key_of result ≡ key_in (kind_in_of kind.now) }
{
    let Some(t) = kind else {
        return None;
    };
    match t.maps.first() {
        Some(_) => {
            note(best, Found::MapIndex(p));
            None
        }
        None => index_of_base(best, p, t.base),
    }
}

/// A row of brackets before a type.
fn put_maps(mut maps: Vec<Keys>, t: ValueType) -> Result<ValueType, AllocError>
    ensures { IfOk result (λ made. Some (ref_in made) ≡ maps_before (map keys_of maps.items) (Some (ref_in t))) }
{
    let base = t.base;
    let mut inner = t.maps;
    maps.append(&mut inner)?;
    Ok(ValueType { maps, base })
}

#[tactic(auto, using(crate::proofs::Gathered::none_of))]
fn join_maps(
    maps: Option<Vec<Keys>>,
    kind: Option<ValueType>,
) -> Result<Option<ValueType>, AllocError>
    ensures { IfOk result (λ made. kind_in_of made ≡ maps_of (rows_read maps) (kind_in_of kind)) }
{
    match (maps, kind) {
        (Some(maps), Some(t)) => {
            let made = put_maps(maps, t)?;
            Ok(Some(made))
        }
        (None, _) => Ok(None),
        (Some(_), None) => Ok(None),
    }
}

/// What a written type stands for; its faults are noted.
#[cycle(written)]
pub fn judge_type<'a>(
    alloc: Global,
    named: &[Option<ValueType>],
    best: &mut Option<Found<'a>>,
    t: &WrittenType,
) -> Result<Option<ValueType>, AllocError>
    ensures best { OnOk result (best_of best.new ≡ first_of (best_of best.old) (type_faults (named_by (kinds_in named.now)) (type_of t.now))) }
    ensures kind { IfOk result (λ made. kind_in_of made ≡ kind_in (named_by (kinds_in named.now)) (type_of t.now)) }
{
    match t {
        WrittenType::Int(_) => Ok(based(alloc, Base::Int)),
        WrittenType::Bool(_) => Ok(based(alloc, Base::Bool)),
        WrittenType::Declared(_, k) => {
            let kind = named_kind(alloc, named, *k)?;
            Ok(kind)
        }
        WrittenType::Parens(_, t) => {
            let kind = judge_type(alloc, named, best, t)?;
            Ok(kind)
        }
        WrittenType::Map(brackets, t) => {
            let maps = judge_brackets(alloc, named, best, brackets)?;
            let kind = judge_type(alloc, named, best, t)?;
            let made = join_maps(maps, kind)?;
            Ok(made)
        }
    }
}

/// The index types of a bracket.
#[cycle(written)]
fn judge_indices<'a>(
    alloc: Global,
    named: &[Option<ValueType>],
    best: &mut Option<Found<'a>>,
    ts: &[WrittenType],
) -> Result<Option<Keys>, AllocError>
    ensures best { OnOk result (best_of best.new ≡ first_of (best_of best.old) (types_faults (named_by (kinds_in named.now)) (tys_of (map type_of ts.now)))) }
    ensures keys { IfOk result (λ made. option_of keys_of made ≡ keys_in (named_by (kinds_in named.now)) (tys_of (map type_of ts.now))) }
{
    let mut keys = Some(Vec::new(alloc));
    for t in ts {
        let kind = judge_type(alloc, named, best, t)?;
        let key = index_of(best, start(t), &kind);
        keys = push_key(keys, key)?;
    }
    match keys {
        None => Ok(None),
        Some(keys) => Ok(Some(Keys { keys })),
    }
}

/// The index types of a row of brackets.
#[cycle(written)]
fn judge_brackets<'a>(
    alloc: Global,
    named: &[Option<ValueType>],
    best: &mut Option<Found<'a>>,
    brackets: &[IndexTypes],
) -> Result<Option<Vec<Keys>>, AllocError>
    ensures best { OnOk result (best_of best.new ≡ first_of (best_of best.old) (indices_faults (named_by (kinds_in named.now)) (indexed_of (map index_view brackets.now)))) }
    ensures maps { IfOk result (λ made. rows_read made ≡ rows_in (keys_in (named_by (kinds_in named.now))) (indexed_of (map index_view brackets.now))) }
{
    let mut maps = Some(Vec::new(alloc));
    for bracket in brackets {
        let keys = judge_indices(alloc, named, best, &bracket.indices)?;
        maps = push_keys(maps, keys)?;
    }
    Ok(maps)
}

fn push_key(
    keys: Option<Vec<IndexType>>,
    key: Option<IndexType>,
) -> Result<Option<Vec<IndexType>>, AllocError>
    ensures { IfOk result (λ made. keys_read made ≡ both_keys (keys_read keys) (option_of key_of key)) }
{
    let (Some(mut keys), Some(key)) = (keys, key) else {
        return Ok(None);
    };
    keys.push(key)?;
    Ok(Some(keys))
}

fn push_keys(maps: Option<Vec<Keys>>, keys: Option<Keys>) -> Result<Option<Vec<Keys>>, AllocError>
    ensures { IfOk result (λ made. rows_read made ≡ both_keys (rows_read maps) (option_of keys_of keys)) }
{
    let (Some(mut maps), Some(keys)) = (maps, keys) else {
        return Ok(None);
    };
    maps.push(keys)?;
    Ok(Some(maps))
}
