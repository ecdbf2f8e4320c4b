//! Names of an index at which maps differ that a claim says to be equal.
ghost use Rattle.std.specs.Prelude.{◌≡◌, ◌&&◌, ◌+◌, true, List, Some, length, slice_get, MatchOption, IfOk};
ghost use Rattle.bg_ast.specs.Values.{Val, Ty, MapTy};
ghost use Rattle.bg_ast.specs.Syntax.{Fun};
ghost use Rattle.bg_sense.specs.Types.{key_types_eq, ty_eq};
ghost use Rattle.bg_kinds.specs.Views.{keys_of, ref_of};
ghost use Rattle.bg_terms.specs.Terms as meant;
ghost use Rattle.bg_terms.specs.Typed.{types_with};
ghost use Rattle.bg_numbered.specs.Indexed.{are_indexed};
ghost use Rattle.bg_term_table.specs.Views.{GiveThese, incs_of, terms_in};
ghost use Rattle.bg_term_table.specs.Lines.{lines_of};
ghost use Rattle.bg_wanted.specs.Alike.{AreOfOne};
ghost use Rattle.bg_wanted.specs.Wanting.{WantsUnlessFinished};

use crate::class::number;
use crate::first::is_same;
use crate::names::map_type;
use crate::way::Sighted;
use bg_kinds::{Keys, TypeRef, is_same_type};
use bg_term_table::{Around, Line, are_same_keys, read_type};
use std::alloc::{AllocError, Global};

/// Whether two types of maps, by their index types and their result types, are one.
fn is_one_type(keys: &Keys, gives: TypeRef<'_>, others: &Keys, values: TypeRef<'_>) -> bool
    ensures { result ≡ (key_types_eq (keys_of keys.now) (keys_of others.now) && ty_eq (ref_of gives.entry) (ref_of values.entry)) }
{
    are_same_keys(&keys.keys, &others.keys) && is_same_type(gives, values)
}

/// Whether this is one of the maps with these index types and this result type.
fn is_map_of(
    around: Around<'_>,
    sight: Sighted<'_>,
    b: u32,
    keys: &Keys,
    gives: TypeRef<'_>,
) -> bool
    ensures { (fs : List Fun) → GiveThese fs around.entry → result ≡ true → slice_get (types_with (incs_of around.entry) (terms_in fs sight.entry.terms.now)) b ≡ Some (MapTy (keys_of keys.now) (ref_of gives.entry)) }
{
    match map_type(read_type(around, sight.terms, b)) {
        None => false,
        Some((others, values)) => is_one_type(keys, gives, others, values),
    }
}

/// How many parts an index of both has, if these are maps of one type.
fn parts_of(around: Around<'_>, sight: Sighted<'_>, a: u32, b: u32) -> Option<usize>
    ensures { MatchOption result (Unit {0}) (λ n. (fs : List Fun) → GiveThese fs around.entry → AreOfOne (types_with (incs_of around.entry) (terms_in fs sight.entry.terms.now)) a b n) }
{
    match map_type(read_type(around, sight.terms, a)) {
        None => None,
        Some((keys, gives)) => {
            if is_map_of(around, sight, b, keys, gives) {
                return Some(keys.keys.len());
            }
            None
        }
    }
}

/// Whether both are there, with different scalars.
fn differ(sight: Sighted<'_>, a: u32, b: u32) -> bool {
    match (sight.values.get(a as usize), sight.values.get(b as usize)) {
        (Some(x), Some(y)) => !is_same(*x, *y),
        _ => false,
    }
}

/// So many more; 2^32 count as want of memory.
fn more(n: usize, k: usize) -> Result<u32, AllocError>
    ensures { IfOk result (λ m. m ≡ n + k) }
{
    match n.checked_add(k) {
        None => Err(AllocError),
        Some(m) => number(m),
    }
}

/// The names of an index at which these maps differ, which have so many parts, and that they do there, behind so many terms.
pub fn names_of(
    alloc: Global,
    count: usize,
    a: u32,
    b: u32,
    parts: usize,
) -> Result<Vec<Line>, AllocError>
    ensures { IfOk result (λ made. (incs : List Ty) (ts : List meant.Term) (s : List Val) → count ≡ length ts → are_indexed (types_with incs ts) ≡ true → AreOfOne (types_with incs ts) a b parts → WantsUnlessFinished incs ts s (lines_of made.items)) }
{
    let s = more(count, parts)?;
    let r = more(s as usize, 1)?;
    let mut made = Vec::new(alloc);
    made.push(Line::Names(a, b))?;
    made.push(Line::Apart(s, r))?;
    Ok(made)
}

/// The names of an index at which the first maps of one type differ that a claim says to be equal and that have no names yet, if there are
/// such maps.
pub fn named_first(
    alloc: Global,
    around: Around<'_>,
    sight: Sighted<'_>,
) -> Result<Option<Vec<Line>>, AllocError>
    ensures { IfOk result (λ o. MatchOption o (Unit {0}) (λ made. (fs : List Fun) (s : List Val) → GiveThese fs around.entry → are_indexed (types_with (incs_of around.entry) (terms_in fs sight.entry.terms.now)) ≡ true → WantsUnlessFinished (incs_of around.entry) (terms_in fs sight.entry.terms.now) s (lines_of made.items))) }
{
    for (a, b) in sight.hints.equal {
        if differ(sight, *a, *b) {
            if let Some(parts) = parts_of(around, sight, *a, *b) {
                let made = names_of(alloc, sight.terms.len(), *a, *b, parts)?;
                return Ok(Some(made));
            }
        }
    }
    Ok(None)
}
