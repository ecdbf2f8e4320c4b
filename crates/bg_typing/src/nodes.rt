//! Nodes over several parts: prefix signs, brackets and function calls.
ghost use Rattle.std.specs.Prelude.{◌≡◌, ◌++◌, length, map, Some};
ghost use Rattle.bg_ast.specs.Values.{result_of};
ghost use Rattle.bg_kinds.specs.Faults.{Wants, first_of, is_none};
ghost use Rattle.bg_typing.specs.Sides.{signed, kind_if, prefix_side, prefix_type, is_minus, wanting, are_typed, pair_faults, pairs_faults, matched_faults, key_kinds, indices_faults_at, select_faults, select_side, update_faults_in, update_faults, update_side};
ghost use Rattle.bg_kinds.specs.FaultViews.{wanted_of, best_of};
ghost use Rattle.bg_kinds.specs.Views.{key_of, base_of, ref_of};
ghost use Rattle.bg_kinds.specs.KindViews.{kind_of, kind_in_of, kinds_in};
ghost use Rattle.bg_typing.specs.SideViews.{side_of};

use crate::sides::{Side, want_of};
use bg_base::Pos;
use bg_kinds::{
    Base, Found, IndexType, TypeRef, ValueType, Wanted, key_type, kind_ref, note, plain, want,
};
use bg_text::{PrefixSign, TreePrefix};

/// The type of what a sign stands before, and of both together.
fn prefix_base(sign: PrefixSign) -> Base
    ensures { base_of result ≡ prefix_type sign }
{
    match sign {
        PrefixSign::Not => Base::Bool,
        PrefixSign::Minus => Base::Int,
    }
}

fn is_minus(sign: PrefixSign) -> bool
    ensures { result ≡ is_minus sign }
{
    match sign {
        PrefixSign::Not => false,
        PrefixSign::Minus => true,
    }
}

pub fn kind_if<'a>(fits: bool, t: TypeRef<'a>) -> Option<TypeRef<'a>>
    ensures { kind_of result ≡ kind_if fits (Some (ref_of t.entry)) }
{
    if fits { Some(t) } else { None }
}

/// A sign before an expression.
fn put_sign<'a>(best: &mut Option<Found<'a>>, x: TreePrefix, a: Side<'a>) -> Side<'a>
    ensures best { best_of best.new ≡ first_of (best_of best.old) (wanting (Wants (prefix_type x.sign)) (side_of a.entry)) }
    ensures side { side_of result ≡ prefix_side x (side_of a.entry) }
{
    let t = plain(prefix_base(x.sign));
    let fits = want_of(best, Wanted::Wants(t), a);
    Side {
        start: x.pos,
        kind: kind_if(fits, t),
        is_constant: is_minus(x.sign) && a.is_constant,
    }
}

/// A row of signs before an expression: the first is the outermost.
pub fn put_signs<'a>(best: &mut Option<Found<'a>>, signs: &[TreePrefix], a: Side<'a>) -> Side<'a>
    ensures best { best_of best.new ≡ first_of (best_of best.old) (signed signs.now (side_of a.entry)).faults }
    ensures side { side_of result ≡ (signed signs.now (side_of a.entry)).side }
{
    let mut side = a;
    let mut i = signs.len();
    while i > 0 {
        i -= 1;
        side = put_sign(best, signs[i], side);
    }
    side
}

/// Whether each part has a type.
pub fn are_typed(parts: &[Side<'_>]) -> bool
    ensures { result ≡ are_typed (map side_of parts.now) }
{
    for a in parts {
        if a.kind.is_none() {
            return false;
        }
    }
    true
}

/// A part of which this is wanted; false where it has another type.
pub fn want_pair<'a>(best: &mut Option<Found<'a>>, w: Option<TypeRef<'a>>, a: Side<'a>) -> bool
    ensures best { best_of best.new ≡ first_of (best_of best.old) (pair_faults (kind_of w.entry) (side_of a.entry)) }
    ensures fits { result ≡ is_none (pair_faults (kind_of w.entry) (side_of a.entry)) }
{
    let (Some(w), Some(t)) = (w, a.kind) else {
        return true;
    };
    want(best, a.start, Wanted::Wants(w), t)
}

fn want_pairs_of_keys<'a>(best: &mut Option<Found<'a>>, ws: &[IndexType], es: &[Side<'a>]) -> bool
    requires { length ws.now ≡ length es.now }
    ensures best { best_of best.new ≡ first_of (best_of best.old) (pairs_faults (key_kinds (map key_of ws.now)) (map side_of es.now)) }
    ensures fits { result ≡ is_none (pairs_faults (key_kinds (map key_of ws.now)) (map side_of es.now)) }
{
    let mut fits = true;
    for i in 0..ws.len() {
        let fit = want_pair(best, Some(key_type(ws[i])), es[i]);
        fits = fits && fit;
    }
    fits
}

/// Indices of a bracket that opens at `p`; true where they fit.
fn want_keys<'a>(best: &mut Option<Found<'a>>, p: Pos, ws: &[IndexType], es: &[Side<'a>]) -> bool
    ensures best { best_of best.new ≡ first_of (best_of best.old) (matched_faults p (key_kinds (map key_of ws.now)) (map side_of es.now)) }
    ensures fits { result ≡ is_none (matched_faults p (key_kinds (map key_of ws.now)) (map side_of es.now)) }
{
    if ws.len() != es.len() {
        note(best, Found::Arity(p));
        return false;
    }
    want_pairs_of_keys(best, ws, es)
}

fn want_pairs<'a>(
    best: &mut Option<Found<'a>>,
    ws: &'a [Option<ValueType>],
    es: &[Side<'a>],
) -> bool
    requires { length ws.now ≡ length es.now }
    ensures best { best_of best.new ≡ first_of (best_of best.old) (pairs_faults (kinds_in ws.now) (map side_of es.now)) }
    ensures fits { result ≡ is_none (pairs_faults (kinds_in ws.now) (map side_of es.now)) }
{
    let mut fits = true;
    for i in 0..ws.len() {
        let fit = want_pair(best, kind_ref(&ws[i]), es[i]);
        fits = fits && fit;
    }
    fits
}

/// Parts of which these types are wanted, one for each; their number is asked for at `p`. True where they fit.
pub fn want_all<'a>(
    best: &mut Option<Found<'a>>,
    p: Pos,
    ws: &'a [Option<ValueType>],
    es: &[Side<'a>],
) -> bool
    ensures best { best_of best.new ≡ first_of (best_of best.old) (matched_faults p (kinds_in ws.now) (map side_of es.now)) }
    ensures fits { result ≡ is_none (matched_faults p (kinds_in ws.now) (map side_of es.now)) }
{
    if ws.len() != es.len() {
        note(best, Found::Arity(p));
        return false;
    }
    want_pairs(best, ws, es)
}

/// What a map gives at an index.
fn result_of<'a>(t: TypeRef<'a>) -> TypeRef<'a>
    ensures { ref_of result ≡ result_of (ref_of t.entry) }
{
    match t.maps.split_first() {
        None => t,
        Some((_, rest)) => TypeRef {
            maps: rest,
            base: t.base,
        },
    }
}

/// Indices of an expression of this type; true where they fit.
fn fit_indices<'a>(
    best: &mut Option<Found<'a>>,
    start: Pos,
    p: Pos,
    es: &[Side<'a>],
    t: TypeRef<'a>,
) -> bool
    ensures best { best_of best.new ≡ first_of (best_of best.old) (indices_faults_at start p (map side_of es.now) (ref_of t.entry)) }
    ensures fits { result ≡ is_none (indices_faults_at start p (map side_of es.now) (ref_of t.entry)) }
{
    match t.maps.first() {
        None => {
            note(best, Found::Mismatch(start, Wanted::SomeMap, t));
            false
        }
        Some(k) => want_keys(best, p, &k.keys, es),
    }
}

fn select_kind<'a>(
    best: &mut Option<Found<'a>>,
    p: Pos,
    m: Side<'a>,
    es: &[Side<'a>],
) -> Option<TypeRef<'a>>
    ensures best { best_of best.new ≡ first_of (best_of best.old) (select_faults p (side_of m.entry) (map side_of es.now)) }
    ensures kind { kind_of result ≡ (select_side p (side_of m.entry) (map side_of es.now)).kind }
{
    let Some(t) = m.kind else {
        return None;
    };
    if !are_typed(es) {
        return None;
    }
    let fits = fit_indices(best, m.start, p, es, t);
    kind_if(fits, result_of(t))
}

/// A bracket that opens at `p` behind an expression.
pub fn select<'a>(best: &mut Option<Found<'a>>, p: Pos, m: Side<'a>, es: &[Side<'a>]) -> Side<'a>
    ensures best { best_of best.new ≡ first_of (best_of best.old) (select_faults p (side_of m.entry) (map side_of es.now)) }
    ensures side { side_of result ≡ select_side p (side_of m.entry) (map side_of es.now) }
{
    Side {
        start: m.start,
        kind: select_kind(best, p, m, es),
        is_constant: false,
    }
}

/// Indices and the value of an update, of an expression of this type; true where they fit.
fn fit_update<'a>(
    best: &mut Option<Found<'a>>,
    start: Pos,
    p: Pos,
    es: &[Side<'a>],
    e: Side<'a>,
    t: TypeRef<'a>,
) -> bool
    ensures best { best_of best.new ≡ first_of (best_of best.old) (update_faults_in start p (map side_of es.now) (side_of e.entry) (ref_of t.entry)) }
    ensures fits { result ≡ is_none (update_faults_in start p (map side_of es.now) (side_of e.entry) (ref_of t.entry)) }
{
    match t.maps.split_first() {
        None => {
            note(best, Found::Mismatch(start, Wanted::SomeMap, t));
            false
        }
        Some((k, rest)) => {
            let value = TypeRef {
                maps: rest,
                base: t.base,
            };
            let indices = want_keys(best, p, &k.keys, es);
            let fits = want_pair(best, Some(value), e);
            indices && fits
        }
    }
}

fn update_kind<'a>(
    best: &mut Option<Found<'a>>,
    p: Pos,
    m: Side<'a>,
    es: &[Side<'a>],
    e: Side<'a>,
) -> Option<TypeRef<'a>>
    ensures best { best_of best.new ≡ first_of (best_of best.old) (update_faults p (side_of m.entry) (map side_of es.now) (side_of e.entry)) }
    ensures kind { kind_of result ≡ (update_side p (side_of m.entry) (map side_of es.now) (side_of e.entry)).kind }
{
    let Some(t) = m.kind else {
        return None;
    };
    let typed = are_typed(es);
    if !typed || e.kind.is_none() {
        return None;
    }
    let fits = fit_update(best, m.start, p, es, e, t);
    kind_if(fits, t)
}

/// A bracket with a value, which opens at `p`, behind an expression.
pub fn update<'a>(
    best: &mut Option<Found<'a>>,
    p: Pos,
    m: Side<'a>,
    es: &[Side<'a>],
    e: Side<'a>,
) -> Side<'a>
    ensures best { best_of best.new ≡ first_of (best_of best.old) (update_faults p (side_of m.entry) (map side_of es.now) (side_of e.entry)) }
    ensures side { side_of result ≡ update_side p (side_of m.entry) (map side_of es.now) (side_of e.entry) }
{
    Side {
        start: m.start,
        kind: update_kind(best, p, m, es, e),
        is_constant: false,
    }
}
