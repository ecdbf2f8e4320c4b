//! Maps with different numbers and one table.
ghost use Rattle.std.specs.Prelude.{◌≡◌, ◌<◌, ◌++◌, ◌∷◌, [], List, Some, None, true, length, map, if◌then◌else◌, slice_get, IfOk, OnOk, MatchOption};
ghost use Rattle.bg_ast.specs.Values.{Val, Ty, MapTy};
ghost use Rattle.bg_sense.specs.Eval.{value_at};
ghost use Rattle.bg_ast.specs.Syntax.{Fun};
ghost use Rattle.bg_terms.specs.Built.{built};
ghost use Rattle.bg_terms.specs.Typed.{types_with};
ghost use Rattle.bg_kinds.specs.Views.{keys_of, ref_of};
ghost use Rattle.bg_term_table.specs.Views.{terms_in, incs_of, GiveThese, seen_ty};
ghost use Rattle.bg_scalar.specs.Values.{val_of, value_of};
ghost use Rattle.bg_wanted.specs.Scalars.{scalars_in};
ghost use Rattle.bg_wanted.specs.Asked.{IsLooked};
ghost use Rattle.bg_wanted.specs.Alike.{map_type_in, IsAlike, AreApart, is_group, NoGroup, IsGroupAt, IsGroup, Covers, AreMore, AreGroups, AreGrown, AreKept, AreAllGroups, tables_of, are_same_at, AllApart, GroupApart, IsPairIn, inner_of};

use crate::class::number;
use crate::looked::Looked;
use crate::tables::built_map;
use bg_kinds::{Keys, TypeRef, is_same_type};
use bg_scalar::{Scalar, Value};
use bg_term_table::{Around, Seen, Term, are_same_keys, read_type};
use std::alloc::{AllocError, Global};
use std::collections::{BTreeMap, BTreeSet};

/// Maps with these index types and this result type: a number of an incarnation or a term for each scalar, and these scalars.
#[derive(Drop)]
pub struct Group<'a> {
    pub keys: &'a Keys,
    pub gives: TypeRef<'a>,
    pub numbers: Vec<u32>,
    pub scalars: BTreeSet<Scalar>,
}

/// Two maps with one table, how many parts their index has, and how many brackets the type of what they give has.
#[derive(Clone, Copy)]
pub struct Pair {
    pub first: u32,
    pub second: u32,
    pub parts: usize,
    pub within: usize,
}

/// The index types and the result type of maps of a whole type, if it is one of maps.
fn whole_map(t: TypeRef<'_>) -> Option<(&Keys, TypeRef<'_>)>
    ensures { MatchOption result (map_type_in (ref_of t.entry) ≡ None) (λ m. map_type_in (ref_of t.entry) ≡ Some (keys_of m.0.now, ref_of m.1)) }
{
    match t.maps.split_first() {
        None => None,
        Some((keys, rest)) => Some((
            keys,
            TypeRef {
                maps: rest,
                base: t.base,
            },
        )),
    }
}

/// The index types and the result type of maps of a type, if it is one of maps.
pub fn map_type(ty: Seen<'_>) -> Option<(&Keys, TypeRef<'_>)>
    ensures { MatchOption result (map_type_in (seen_ty ty.entry) ≡ None) (λ m. map_type_in (seen_ty ty.entry) ≡ Some (keys_of m.0.now, ref_of m.1)) }
{
    match ty {
        Seen::Map(keys, gives) => Some((keys, gives)),
        Seen::Whole(t) => whole_map(t),
    }
}

/// Whether a group is of maps of this type.
fn is_of(group: &Group<'_>, keys: &Keys, gives: TypeRef<'_>) -> bool
    ensures { result ≡ is_group group.now (keys_of keys.now) (ref_of gives.entry) }
{
    are_same_keys(&group.keys.keys, &keys.keys) && is_same_type(group.gives, gives)
}

/// The place of the group of maps of this type, if one is there.
fn place_in(groups: &[Group<'_>], keys: &Keys, gives: TypeRef<'_>) -> Option<usize>
    ensures { MatchOption result (NoGroup groups.now (keys_of keys.now) (ref_of gives.entry)) (λ i. IsGroupAt groups.now i (keys_of keys.now) (ref_of gives.entry)) }
{
    let mut i = 0;
    while i < groups.len() {
        if is_of(&groups[i], keys, gives) {
            return Some(i);
        }
        i += 1;
    }
    None
}

/// The number of a map more, if it is new.
fn put_number(numbers: &mut Vec<u32>, number: u32, is_new: bool) -> Result<(), AllocError>
    ensures { OnOk result (numbers.new.items ≡ (if is_new then numbers.old.items ++ number ∷ [] else numbers.old.items)) }
{
    if is_new {
        numbers.push(number)?;
        return Ok(());
    }
    Ok(())
}

/// The number of a map more, unless one with its scalar is there.
fn put(group: &mut Group<'_>, number: u32, scalar: Scalar) -> Result<(), AllocError>
    ensures keys { OnOk result (keys_of group.new.keys.now ≡ keys_of group.old.keys.now) }
    ensures gives { OnOk result (ref_of group.new.gives ≡ ref_of group.old.gives) }
    ensures scalars { OnOk result ((s : List Val) → value_at s number ≡ val_of scalar → IsGroup s group.old → IsGroup s group.new × Covers s group.new number) }
    ensures numbers { OnOk result (AreMore group.old.numbers.items number group.new.numbers.items) }
{
    let is_new = group.scalars.insert(scalar)?;
    put_number(&mut group.numbers, number, is_new)?;
    Ok(())
}

/// A group of one map.
fn of_one<'a>(
    alloc: Global,
    keys: &'a Keys,
    gives: TypeRef<'a>,
    number: u32,
    scalar: Scalar,
) -> Result<Group<'a>, AllocError>
    ensures keys { IfOk result (λ g. keys_of g.keys.now ≡ keys_of keys.now) }
    ensures gives { IfOk result (λ g. ref_of g.gives ≡ ref_of gives.entry) }
    ensures scalars { IfOk result (λ g. (s : List Val) → value_at s number ≡ val_of scalar → IsGroup s g × Covers s g number) }
    ensures numbers { IfOk result (λ g. AreMore [] number g.numbers.items) }
{
    let mut group = Group {
        keys,
        gives,
        numbers: Vec::new(alloc),
        scalars: BTreeSet::new(alloc),
    };
    put(&mut group, number, scalar)?;
    Ok(group)
}

/// A map more among the groups.
fn put_map<'a>(
    alloc: Global,
    groups: &mut Vec<Group<'a>>,
    keys: &'a Keys,
    gives: TypeRef<'a>,
    number: u32,
    scalar: Scalar,
) -> Result<(), AllocError>
    ensures { OnOk result ((s : List Val) (tys : List Ty) → slice_get tys number ≡ Some (MapTy (keys_of keys.now) (ref_of gives.entry)) → value_at s number ≡ val_of scalar → AreGroups s tys groups.old.items → AreGrown s tys groups.old.items groups.new.items number (keys_of keys.now) (ref_of gives.entry)) }
{
    match place_in(groups, keys, gives) {
        Some(i) => {
            put(&mut groups[i], number, scalar)?;
            Ok(())
        }
        None => {
            let group = of_one(alloc, keys, gives, number, scalar)?;
            groups.push(group)?;
            Ok(())
        }
    }
}

/// The incarnation or the term with this number and scalar among the groups, if it is a map.
fn put_value<'a>(
    alloc: Global,
    around: Around<'a>,
    terms: &'a [Term],
    groups: &mut Vec<Group<'a>>,
    j: u32,
    scalar: Scalar,
) -> Result<(), AllocError>
    ensures { OnOk result ((fs : List Fun) (s : List Val) → GiveThese fs around.entry → value_at s j ≡ val_of scalar → AreGroups s (types_with (incs_of around.entry) (terms_in fs terms.now)) groups.old.items → AreKept s (types_with (incs_of around.entry) (terms_in fs terms.now)) groups.old.items groups.new.items j) }
{
    match map_type(read_type(around, terms, j)) {
        None => Ok(()),
        Some((keys, gives)) => {
            put_map(alloc, groups, keys, gives, j, scalar)?;
            Ok(())
        }
    }
}

/// The maps among incarnations and terms, by their types.
fn groups<'a>(
    alloc: Global,
    around: Around<'a>,
    terms: &'a [Term],
    values: &[Scalar],
) -> Result<Vec<Group<'a>>, AllocError>
    ensures { IfOk result (λ made. (fs : List Fun) → GiveThese fs around.entry → AreAllGroups (scalars_in values.now) (types_with (incs_of around.entry) (terms_in fs terms.now)) made.items (length values.now)) }
{
    let mut made = Vec::new(alloc);
    let mut j = 0;
    while j < values.len() {
        let place = number(j)?;
        put_value(alloc, around, terms, &mut made, place, values[j])?;
        j += 1;
    }
    Ok(made)
}

/// The table of a map of a group.
fn table(
    alloc: Global,
    looked: Looked<'_>,
    group: &Group<'_>,
    values: &[Scalar],
    j: u32,
) -> Result<Value, AllocError>
    ensures { IfOk result (λ made. (fs : List Fun) (incs : List Ty) → IsLooked fs incs values.now looked.entry → value_of made ≡ built (scalars_in values.now) (length incs) (terms_in fs looked.entry.terms.now) (MapTy (keys_of group.now.keys.now) (ref_of group.now.gives)) (value_at (scalars_in values.now) j)) }
{
    match values.get(j as usize) {
        None => Err(AllocError),
        Some(x) => built_map(alloc, looked, group.keys, group.gives, *x),
    }
}

/// The tables of the maps of a group.
fn tables(
    alloc: Global,
    looked: Looked<'_>,
    group: &Group<'_>,
    values: &[Scalar],
) -> Result<Vec<Value>, AllocError>
    ensures count { IfOk result (λ made. length made.items ≡ length group.now.numbers.items) }
    ensures tables { IfOk result (λ made. (fs : List Fun) (incs : List Ty) → IsLooked fs incs values.now looked.entry → map value_of made.items ≡ tables_of (scalars_in values.now) (length incs) (terms_in fs looked.entry.terms.now) group.now) }
{
    let mut made = Vec::new(alloc);
    let mut i = 0;
    while i < group.numbers.len() {
        let t = table(alloc, looked, group, values, group.numbers[i])?;
        made.push(t)?;
        i += 1;
    }
    Ok(made)
}

/// The places of two tables that are the same. Takes time for the tables and for the logarithm of how many there are.
fn same(alloc: Global, tables: Vec<Value>) -> Result<Option<(usize, usize)>, AllocError>
    ensures { IfOk result (λ found. MatchOption found (AllApart tables.items) (λ p. (p.0 < p.1) × ((p.1 < length tables.items) × (are_same_at tables.items p.0 p.1 ≡ true)))) }
{
    let mut known = BTreeMap::new(alloc);
    let mut left = tables;
    while let Some(t) = left.pop() {
        let i = left.len();
        let first = known.get(&t).copied();
        match first {
            Some(j) => return Ok(Some((i, j))),
            None => {
                known.insert(t, i)?;
            }
        }
    }
    Ok(None)
}

/// Two maps of a group with one table.
fn pair_in(
    alloc: Global,
    looked: Looked<'_>,
    group: &Group<'_>,
    values: &[Scalar],
) -> Result<Option<Pair>, AllocError>
    ensures { IfOk result (λ found. (fs : List Fun) (incs : List Ty) → IsLooked fs incs values.now looked.entry → MatchOption found (GroupApart (scalars_in values.now) (length incs) (terms_in fs looked.entry.terms.now) group.now) (λ p. IsPairIn (scalars_in values.now) (length incs) (terms_in fs looked.entry.terms.now) group.now p)) }
{
    let tables = tables(alloc, looked, group, values)?;
    let found = same(alloc, tables)?;
    match found {
        None => Ok(None),
        Some((i, j)) => Ok(Some(Pair {
            first: group.numbers[i],
            second: group.numbers[j],
            parts: group.keys.keys.len(),
            within: group.gives.maps.len(),
        })),
    }
}

/// The pair whose maps give what has fewer brackets; the first one where that is the same.
fn inner(best: Option<Pair>, found: Option<Pair>) -> Option<Pair>
    ensures { result ≡ inner_of best found }
{
    match best {
        None => found,
        Some(p) => match found {
            None => Some(p),
            Some(q) => {
                if q.within < p.within {
                    Some(q)
                } else {
                    Some(p)
                }
            }
        },
    }
}

/// Two maps of one type with different numbers and one table, if there are such, among incarnations and terms with these scalars; of all such
/// pairs one of maps that give what has the fewest brackets. So maps are named at most once: where what they give is told apart, selects of
/// both at an index at which they differ make their tables differ.
pub fn alike<'a>(
    alloc: Global,
    around: Around<'a>,
    looked: Looked<'a>,
    values: &[Scalar],
) -> Result<Option<Pair>, AllocError>
    ensures { IfOk result (λ found. (fs : List Fun) → GiveThese fs around.entry → IsLooked fs (incs_of around.entry) values.now looked.entry → length values.now ≡ length (types_with (incs_of around.entry) (terms_in fs looked.entry.terms.now)) →
        MatchOption found (AreApart (scalars_in values.now) (length (incs_of around.entry)) (terms_in fs looked.entry.terms.now) (types_with (incs_of around.entry) (terms_in fs looked.entry.terms.now)))
        (λ p. IsAlike (scalars_in values.now) (length (incs_of around.entry)) (terms_in fs looked.entry.terms.now) (types_with (incs_of around.entry) (terms_in fs looked.entry.terms.now)) p)) }
{
    let groups = groups(alloc, around, looked.terms, values)?;
    let mut best = None;
    let mut i = 0;
    while i < groups.len() {
        let found = pair_in(alloc, looked, &groups[i], values)?;
        let next = inner(best, found);
        best = next;
        i += 1;
    }
    Ok(best)
}
