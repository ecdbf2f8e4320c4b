//! What synonyms name, and what they stand for.
ghost use Rattle.std.specs.Prelude.{◌≡◌, ◌++◌, ◌<◌, ◌^◌, ℕ, length, map, IfOk, OnOk, IsTrue, Some, slice_get};
ghost use Rattle.bg_graph.specs.Graphs.{graph_of};
ghost use Rattle.bg_ast.specs.Values.{UserTy};
ghost use Rattle.bg_ast.specs.Views.{type_of, tys_of, indexed_of, index_view, type_name_of};
ghost use Rattle.bg_sense.specs.Types.{ty_eq};
ghost use Rattle.bg_kinds.specs.Views.{ref_in};
ghost use Rattle.bg_kinds.specs.Kinds.{kind_in, named_by, synonym_or};
ghost use Rattle.bg_kinds.specs.Synonyms.{IsUnfolded, mentions, mentioned_in, all_mentions, type_mentions, synonym_graph};
ghost use Rattle.bg_kinds.specs.KindViews.{kinds_in, kind_in_of};

use crate::kinds::{Base, ValueType, is_same_type};
use crate::written::{based, judge_type};
use bg_ast::resolved::{IndexTypes, TypeName, WrittenType};
use std::alloc::{AllocError, Global};

/// Adds the declared types that a written type names.
#[cycle(mentions)]
fn push_mentions(out: &mut Vec<u32>, t: &WrittenType) -> Result<(), AllocError>
    ensures { OnOk result (out.new.items ≡ out.old.items ++ mentions (type_of t.now)) }
{
    match t {
        WrittenType::Int(_) | WrittenType::Bool(_) => Ok(()),
        WrittenType::Declared(_, k) => {
            out.push(*k)?;
            Ok(())
        }
        WrittenType::Parens(_, t) => {
            push_mentions(out, t)?;
            Ok(())
        }
        WrittenType::Map(brackets, t) => {
            push_brackets(out, brackets)?;
            push_mentions(out, t)?;
            Ok(())
        }
    }
}

#[cycle(mentions)]
fn push_list(out: &mut Vec<u32>, ts: &[WrittenType]) -> Result<(), AllocError>
    ensures { OnOk result (out.new.items ≡ out.old.items ++ all_mentions (tys_of (map type_of ts.now))) }
{
    for t in ts {
        push_mentions(out, t)?;
    }
    Ok(())
}

#[cycle(mentions)]
fn push_brackets(out: &mut Vec<u32>, brackets: &[IndexTypes]) -> Result<(), AllocError>
    ensures { OnOk result (out.new.items ≡ out.old.items ++ mentioned_in (indexed_of (map index_view brackets.now))) }
{
    for bracket in brackets {
        push_list(out, &bracket.indices)?;
    }
    Ok(())
}

fn mentions_of(alloc: Global, d: &TypeName) -> Result<Vec<u32>, AllocError>
    ensures { IfOk result (λ made. made.items ≡ type_mentions (type_name_of d.now)) }
{
    let mut out = Vec::new(alloc);
    match &d.synonym {
        None => Ok(out),
        Some(t) => {
            push_mentions(&mut out, t)?;
            Ok(out)
        }
    }
}

/// For each declared type those that it names.
pub fn edges_of(alloc: Global, ds: &[TypeName]) -> Result<Vec<Vec<u32>>, AllocError>
    ensures { IfOk result (λ made. graph_of made.items ≡ synonym_graph (map type_name_of ds.now)) }
{
    let mut made = Vec::new(alloc);
    for d in ds {
        made.push(mentions_of(alloc, d)?)?;
    }
    Ok(made)
}

/// What a declared type stands for, by a table of those that it names.
fn unfolded(
    alloc: Global,
    named: &[Option<ValueType>],
    ds: &[TypeName],
    k: u32,
) -> Result<Option<ValueType>, AllocError>
    ensures { IfOk result (λ made. kind_in_of made ≡ synonym_or (Some (UserTy k)) (kind_in (named_by (kinds_in named.now))) (slice_get (map type_name_of ds.now) k)) }
{
    let Some(d) = ds.get(k as usize) else {
        return Ok(based(alloc, Base::User(k)));
    };
    match &d.synonym {
        None => Ok(based(alloc, Base::User(k))),
        Some(t) => {
            let mut seen = None;
            let kind = judge_type(alloc, named, &mut seen, t)?;
            Ok(kind)
        }
    }
}

/// The declared types in the order of their ranks, which differ.
fn by_rank(alloc: Global, ranks: &[u32]) -> Result<Vec<u32>, AllocError> {
    let mut order = vec![in alloc; 0u32; ranks.len()]?;
    let mut k = 0u32;
    for rank in ranks {
        let place = *rank as usize;
        if place < order.len() {
            order[place] = k;
        }
        if k < u32::MAX {
            k += 1;
        }
    }
    Ok(order)
}

/// A table of what declared types stand for, those of smaller rank first.
pub fn table_of(
    alloc: Global,
    ds: &[TypeName],
    ranks: &[u32],
) -> Result<Vec<Option<ValueType>>, AllocError> {
    let order = by_rank(alloc, ranks)?;
    let mut named = Vec::new(alloc);
    for _d in ds {
        named.push(None)?;
    }
    for k in &order {
        let kind = unfolded(alloc, &named, ds, *k)?;
        let place = *k as usize;
        if place < named.len() {
            named[place] = kind;
        }
    }
    Ok(named)
}

fn is_same(t: &ValueType, u: &ValueType) -> bool
    ensures { result ≡ ty_eq (ref_in t.now) (ref_in u.now) }
{
    is_same_type(t.as_ref(), u.as_ref())
}

#[tactic(auto, using(crate::proofs::Sameness::types_same))]
fn is_same_kind(a: &Option<ValueType>, b: &Option<ValueType>) -> bool
    ensures { IsTrue result → kind_in_of a.now ≡ kind_in_of b.now }
{
    match (a, b) {
        (None, None) => true,
        (Some(t), Some(u)) => is_same(t, u),
        _ => false,
    }
}

/// Whether a table says of one declared type what it stands for.
fn is_unfolded_at(
    alloc: Global,
    named: &[Option<ValueType>],
    ds: &[TypeName],
    k: u32,
) -> Result<bool, AllocError>
    ensures { IfOk result (λ b. IsTrue b → named_by (kinds_in named.now) k ≡ synonym_or (Some (UserTy k)) (kind_in (named_by (kinds_in named.now))) (slice_get (map type_name_of ds.now) k)) }
{
    let Some(kind) = named.get(k as usize) else {
        return Ok(false);
    };
    let wanted = unfolded(alloc, named, ds, k)?;
    Ok(is_same_kind(kind, &wanted))
}

/// Whether a table says of each declared type what it stands for.
pub fn is_unfolded(
    alloc: Global,
    named: &[Option<ValueType>],
    ds: &[TypeName],
) -> Result<bool, AllocError>
    requires { length ds.now < 2 ^ 32 }
    ensures { IfOk result (λ b. IsTrue b → IsUnfolded (map type_name_of ds.now) (named_by (kinds_in named.now))) }
{
    if named.len() != ds.len() {
        return Ok(false);
    }
    for k in 0..ds.len() as u32 {
        if !is_unfolded_at(alloc, named, ds, k)? {
            return Ok(false);
        }
    }
    Ok(true)
}
