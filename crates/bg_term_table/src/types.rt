//! The types of what is made flat, and the heads of selects and updates.
ghost use Rattle.std.specs.Prelude.{◌≡◌, List, map, slice_get, IfOk};
ghost use Rattle.bg_ast.specs.Values.{result_of};
ghost use Rattle.bg_ast.specs.Syntax.{Fun};
ghost use Rattle.bg_terms.specs.Terms.{Applies};
ghost use Rattle.bg_terms.specs.Typed.{types_with};
ghost use Rattle.bg_numbered.specs.Put.{head_ty, key_or, keys_in, select_head, type_at, ty_or, update_head};
ghost use Rattle.bg_kinds.specs.Views.{keys_of, ref_in};
ghost use Rattle.bg_term_table.specs.Views.{meaning, head_of, terms_in, incs_of, result_ty, GiveThese, seen_ty};

use crate::around::Around;
use crate::kept_types::{keys_copied, type_copied};
use crate::leaves::local;
use crate::seen::Seen;
use crate::table::{Head, Term};
use bg_ast::resolved::Expr;
use bg_kinds::{Base, Keys, TypeRef, ValueType, key_type, plain};
use std::alloc::{AllocError, Global};

/// The type of part j of an index.
fn part_type(keys: &Keys, j: u32) -> Seen<'static>
    ensures { seen_ty result ≡ key_or (slice_get (keys_of keys.now) j) }
{
    match keys.keys.get(j as usize) {
        None => Seen::Whole(plain(Base::Int)),
        Some(k) => Seen::Whole(key_type(*k)),
    }
}

/// The type of what the function with this number gives.
fn result_type(results: &[ValueType], f: u32) -> Seen<'_>
    ensures { (fs : List Fun) → map ref_in results.now ≡ map result_ty fs → seen_ty result ≡ head_ty fs (Applies f) }
{
    match results.get(f as usize) {
        None => Seen::Whole(plain(Base::Int)),
        Some(t) => Seen::Whole(t.as_ref()),
    }
}

/// The type of what a head makes.
pub fn head_type<'a>(results: &'a [ValueType], head: &'a Head) -> Seen<'a>
    ensures { (fs : List Fun) → map ref_in results.now ≡ map result_ty fs → seen_ty result ≡ head_ty fs (head_of head.now) }
{
    match head {
        Head::Function(f) => result_type(results, *f),
        Head::Selects(_, t) => Seen::Whole(t.as_ref()),
        Head::Updates(k, t) => Seen::Map(k, t.as_ref()),
        Head::Differs(k, _, j) => part_type(k, *j),
    }
}

/// The type of the incarnation or the term with this number.
pub fn read_type<'a>(around: Around<'a>, terms: &'a [Term], j: u32) -> Seen<'a>
    ensures { (fs : List Fun) → GiveThese fs around.entry → seen_ty result ≡ ty_or (slice_get (types_with (incs_of around.entry) (terms_in fs terms.now)) j) }
{
    let j = j as usize;
    let count = around.incarnations.len();
    if j < count {
        return Seen::Whole(around.incarnations[j].as_ref());
    }
    match terms.get(j - count) {
        None => Seen::Whole(plain(Base::Int)),
        Some(t) => head_type(around.results, &t.head),
    }
}

/// The type of what is flat, where it reads an incarnation or a term.
fn flat_type<'a>(around: Around<'a>, terms: &'a [Term], x: &Expr) -> Seen<'a>
    ensures { (fs : List Fun) → GiveThese fs around.entry → seen_ty result ≡ type_at (types_with (incs_of around.entry) (terms_in fs terms.now)) (meaning x.now) }
{
    match local(x) {
        None => Seen::Whole(plain(Base::Int)),
        Some(j) => read_type(around, terms, j),
    }
}

/// The index types of maps of a type.
pub fn index_types(alloc: Global, t: Seen<'_>) -> Result<Keys, AllocError>
    ensures { IfOk result (λ made. keys_of made ≡ keys_in (seen_ty t.entry)) }
{
    match t {
        Seen::Map(k, _) => keys_copied(alloc, &k.keys),
        Seen::Whole(t) => match t.maps.first() {
            None => keys_copied(alloc, &[]),
            Some(k) => keys_copied(alloc, &k.keys),
        },
    }
}

/// The result type of maps of a type.
pub fn result_in(alloc: Global, t: Seen<'_>) -> Result<ValueType, AllocError>
    ensures { IfOk result (λ made. ref_in made ≡ result_of (seen_ty t.entry)) }
{
    match t {
        Seen::Map(_, t) => type_copied(alloc, t),
        Seen::Whole(t) => match t.maps.split_first() {
            None => type_copied(alloc, t),
            Some((_, rest)) => type_copied(
                alloc,
                TypeRef {
                    maps: rest,
                    base: t.base,
                },
            ),
        },
    }
}

/// The head of a select of a map that is made flat.
pub fn select_head(
    alloc: Global,
    around: Around<'_>,
    terms: &[Term],
    x: &Expr,
) -> Result<Head, AllocError>
    ensures { IfOk result (λ h. (fs : List Fun) → GiveThese fs around.entry → head_of h ≡ select_head (type_at (types_with (incs_of around.entry) (terms_in fs terms.now)) (meaning x.now))) }
{
    let t = flat_type(around, terms, x);
    let keys = index_types(alloc, t)?;
    let gives = result_in(alloc, t)?;
    Ok(Head::Selects(keys, gives))
}

/// The head of an update of a map that is made flat.
pub fn update_head(
    alloc: Global,
    around: Around<'_>,
    terms: &[Term],
    x: &Expr,
) -> Result<Head, AllocError>
    ensures { IfOk result (λ h. (fs : List Fun) → GiveThese fs around.entry → head_of h ≡ update_head (type_at (types_with (incs_of around.entry) (terms_in fs terms.now)) (meaning x.now))) }
{
    let t = flat_type(around, terms, x);
    let keys = index_types(alloc, t)?;
    let gives = result_in(alloc, t)?;
    Ok(Head::Updates(keys, gives))
}
