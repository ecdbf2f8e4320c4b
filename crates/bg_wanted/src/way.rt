//! The way along updates from a select.
ghost use Rattle.std.specs.Prelude.{◌≡◌, ◌<◌, ◌≤◌, ◌⊎◌, ◌∷◌, [], List, Some, true, false, length, slice_get, MatchOption, IfOk, OnOk};
ghost use Rattle.bg_ast.specs.Values.{Ty};
ghost use Rattle.bg_ast.specs.Syntax.{Fun};
ghost use Rattle.bg_term_table.specs.Views.{terms_in};
ghost use Rattle.bg_wanted.specs.Rows.{rows_of};
ghost use Rattle.bg_wanted.specs.Telling.{Fits};
ghost use Rattle.bg_wanted.specs.Asked.{IsOf, map_read_in};
ghost use Rattle.bg_wanted.specs.Chased.{IsSelectAt, IsSighted, IsWay, Keeps, Comes};

use crate::false_here::{Selected, is_new_lost, is_old_lost, is_one, select_at, update_at};
use crate::hints::Hints;
use crate::looked::Update;
use crate::paths::{
    Paths, begin, equals, is_new, known_at, next, no_paths, put_reads, put_terms, put_two, wait,
};
use crate::row::Row;
use crate::updates::{are_same, first_read};
use crate::wants::{Wants, nothing, select, tell_elsewhere, tell_here};
use bg_ast::resolved::Expr;
use bg_scalar::Scalar;
use bg_term_table::{Line, Term, local};
use std::alloc::{AllocError, Global};

/// The terms of a leaf behind so many incarnations, what all are worth, the rows, and where to look first.
#[derive(Clone, Copy)]
pub struct Sighted<'a> {
    pub count: u32,
    pub terms: &'a [Term],
    pub values: &'a [Scalar],
    pub rows: &'a [Row],
    pub hints: Hints<'a>,
}

/// Instances that are false at the leaf; lines that bring selects, with instances of these; and what was met.
#[derive(Drop)]
pub struct Way {
    pub lost: Vec<Line>,
    pub wants: Wants,
    pub paths: Paths,
}

/// No step yet.
pub fn no_step(alloc: Global, sight: Sighted<'_>) -> Result<Way, AllocError>
    ensures { IfOk result (λ w. (fs : List Fun) (incs : List Ty) → IsWay fs incs sight.entry w []) }
{
    let wants = nothing(alloc, sight.terms.len())?;
    let paths = no_paths(alloc, sight)?;
    Ok(Way {
        lost: Vec::new(alloc),
        wants,
        paths,
    })
}

/// The number that the new value of an update reads, if it reads one.
fn new_read(sight: Sighted<'_>, u: u32) -> Option<u32> {
    match sight.terms.get(u as usize) {
        None => None,
        Some(t) => match t.args.split_first() {
            None => None,
            Some((_, rest)) => first_read(rest),
        },
    }
}

/// The number of the map of an update, if it reads one.
fn map_of(sight: Sighted<'_>, u: u32) -> Option<u32>
    ensures { (fs : List Fun) → result ≡ map_read_in (slice_get (terms_in fs sight.entry.terms.now) u) }
{
    match sight.terms.get(u as usize) {
        None => None,
        Some(t) => first_read(&t.args),
    }
}

/// Whether this is the number of a term that is there.
fn is_there(sight: Sighted<'_>, s: u32) -> bool
    ensures so { (fs : List Fun) → result ≡ true → s < length (terms_in fs sight.entry.terms.now) }
    ensures not { (fs : List Fun) → result ≡ false → length (terms_in fs sight.entry.terms.now) ≤ s }
{
    (s as usize) < sight.terms.len()
}

/// Whether both are numbers of terms that are there.
fn are_there(sight: Sighted<'_>, s: u32, r: u32) -> bool
    ensures so { (fs : List Fun) → result ≡ true → (s < length (terms_in fs sight.entry.terms.now)) × (r < length (terms_in fs sight.entry.terms.now)) }
    ensures not { (fs : List Fun) → result ≡ false → (length (terms_in fs sight.entry.terms.now) ≤ s) ⊎ (length (terms_in fs sight.entry.terms.now) ≤ r) }
{
    if is_there(sight, s) {
        return is_there(sight, r);
    }
    false
}

/// What the new value of an update reads is gone along later.
fn stored(alloc: Global, sight: Sighted<'_>, paths: &mut Paths, u: u32) -> Result<(), AllocError> {
    match sight.terms.get(u as usize) {
        None => Ok(()),
        Some(t) => match t.args.get(1) {
            None => Ok(()),
            Some(v) => put_reads(alloc, sight, paths, v),
        },
    }
}

/// The select of an update at its index.
fn at_index(
    alloc: Global,
    sight: Sighted<'_>,
    way: &mut Way,
    u: u32,
    s: u32,
) -> Result<(), AllocError>
    ensures told { OnOk result ((fs : List Fun) (incs : List Ty) → IsSighted fs incs sight.entry → u < length (terms_in fs sight.entry.terms.now) → s < way.old.wants.next → IsWay fs incs sight.entry way.old [] → IsWay fs incs sight.entry way.new []) }
    ensures same { OnOk result (way.new.wants.next ≡ way.old.wants.next) }
{
    if !is_there(sight, s) {
        tell_here(&mut way.wants, u, s)?;
        return Ok(());
    }
    if is_new_lost(sight.rows, u, s) {
        way.lost.push(Line::AtIndex(u, s))?;
        return Ok(());
    }
    match new_read(sight, u) {
        None => Ok(()),
        Some(y) => {
            put_two(alloc, sight.count, &mut way.paths, s, y)?;
            Ok(())
        }
    }
}

/// The place of the select of a map at the index of a select, if it is there.
fn known_there(
    alloc: Global,
    sight: Sighted<'_>,
    paths: &Paths,
    map: u32,
    x: Selected<'_>,
) -> Result<Option<u32>, AllocError>
    ensures { IfOk result (λ o. MatchOption o (Unit {0}) (λ r. (fs : List Fun) → r < length (terms_in fs sight.entry.terms.now))) }
{
    let found = known_at(alloc, paths, map, x)?;
    match found {
        None => Ok(None),
        Some(r) => {
            if is_there(sight, r) {
                return Ok(Some(r));
            }
            Ok(None)
        }
    }
}

/// The select of a map at the index of a select, which is there or comes in.
fn select_before(
    alloc: Global,
    sight: Sighted<'_>,
    way: &mut Way,
    map: u32,
    x: Selected<'_>,
) -> Result<u32, AllocError>
    ensures comes { IfOk result (λ r. (fs : List Fun) (incs : List Ty) → Fits incs (terms_in fs sight.entry.terms.now) map x.entry.number → IsWay fs incs sight.entry way.old [] → Comes fs incs sight.entry way.new r) }
    ensures more { OnOk result (way.old.wants.next ≤ way.new.wants.next) }
{
    let found = known_there(alloc, sight, &way.paths, map, x)?;
    match found {
        None => {
            let r = select(&mut way.wants, map, x.number)?;
            Ok(r)
        }
        Some(r) => Ok(r),
    }
}

/// The selects of an update and of its map at another index, where both are there.
fn both_there(
    alloc: Global,
    sight: Sighted<'_>,
    way: &mut Way,
    u: u32,
    s: u32,
    r: u32,
) -> Result<(), AllocError>
    ensures { OnOk result (Keeps sight.entry way.old way.new) }
{
    if is_old_lost(sight.rows, u, s, r) {
        way.lost.push(Line::Elsewhere(u, s, r))?;
        return Ok(());
    }
    put_terms(alloc, sight.count, &mut way.paths, s, r)?;
    Ok(())
}

/// The selects of an update and of its map at another index.
fn elsewhere(
    alloc: Global,
    sight: Sighted<'_>,
    way: &mut Way,
    u: u32,
    s: u32,
    r: u32,
) -> Result<(), AllocError>
    ensures { OnOk result ((fs : List Fun) (incs : List Ty) → IsSighted fs incs sight.entry → u < length (terms_in fs sight.entry.terms.now) → s < way.old.wants.next → Comes fs incs sight.entry way.old r → IsWay fs incs sight.entry way.new []) }
{
    if are_there(sight, s, r) {
        both_there(alloc, sight, way, u, s, r)?;
        return Ok(());
    }
    tell_elsewhere(&mut way.wants, u, s, r)?;
    Ok(())
}

/// The select of the map of an update at the index of a select; at has the map's number and that of the update's select there.
fn at_map(
    alloc: Global,
    sight: Sighted<'_>,
    way: &mut Way,
    u: u32,
    at: (u32, u32),
    x: Selected<'_>,
) -> Result<(), AllocError>
    ensures { OnOk result ((fs : List Fun) (incs : List Ty) → IsSighted fs incs sight.entry → u < length (terms_in fs sight.entry.terms.now) → at.1 < way.old.wants.next → Fits incs (terms_in fs sight.entry.terms.now) at.0 x.entry.number → IsWay fs incs sight.entry way.old [] → IsWay fs incs sight.entry way.new []) }
{
    let r = select_before(alloc, sight, way, at.0, x)?;
    elsewhere(alloc, sight, way, u, at.1, r)?;
    wait(&mut way.paths, at.0, r)?;
    Ok(())
}

/// Whether this is a number below another.
fn is_below(s: u32, next: u32) -> bool
    ensures { result ≡ true → s < next }
{
    s < next
}

/// Whether a select comes in of which all is told at once.
fn is_asked_too(sight: Sighted<'_>, s: u32) -> bool
    ensures { (fs : List Fun) → result ≡ true → length (terms_in fs sight.entry.terms.now) ≤ s }
{
    if is_there(sight, s) {
        return false;
    }
    sight.hints.further
}

/// The select of an update at its index, if it comes in and all of it is told at once.
fn at_new(sight: Sighted<'_>, way: &mut Way, u: u32, s: u32) -> Result<(), AllocError>
    ensures told { OnOk result ((fs : List Fun) (incs : List Ty) → IsSighted fs incs sight.entry → u < length (terms_in fs sight.entry.terms.now) → s < way.old.wants.next → IsWay fs incs sight.entry way.old [] → IsWay fs incs sight.entry way.new []) }
    ensures same { OnOk result (way.new.wants.next ≡ way.old.wants.next) }
{
    if is_asked_too(sight, s) {
        tell_here(&mut way.wants, u, s)?;
        return Ok(());
    }
    Ok(())
}

/// Whether two expressions are one incarnation or term, or one number.
fn is_one_leaf(a: &Expr, b: &Expr) -> bool {
    match (local(a), local(b)) {
        (Some(j), Some(k)) => j == k,
        (None, None) => match (a, b) {
            (Expr::Number(_, m), Expr::Number(_, n)) => *m == *n,
            _ => false,
        },
        _ => false,
    }
}

/// Whether these are the same, one by one.
fn are_one_by_one(xs: &[Expr], ys: &[Expr]) -> bool {
    if xs.len() != ys.len() {
        return false;
    }
    for (i, x) in xs.iter().enumerate() {
        match ys.get(i) {
            None => return false,
            Some(y) => {
                if !is_one_leaf(x, y) {
                    return false;
                }
            }
        }
    }
    true
}

/// Whether the index of an update is written as that of a select.
fn is_written(sight: Sighted<'_>, u: u32, a: u32) -> bool {
    match (sight.terms.get(u as usize), sight.terms.get(a as usize)) {
        (Some(t), Some(s)) => match (t.args.get(2..), s.args.get(1..)) {
            (Some(i), Some(k)) => are_one_by_one(i, k),
            _ => false,
        },
        _ => false,
    }
}

/// Whether a way from a select ends at an update whose index is the select's at the leaf.
fn ends(sight: Sighted<'_>, u: u32, a: u32) -> bool {
    !sight.hints.further || is_written(sight, u, a)
}

/// The select of an update, which has this number, at its index, if it is there at the leaf or comes in; whether no way goes on behind
/// the update, as both indices are written alike.
fn at_its_index(
    alloc: Global,
    sight: Sighted<'_>,
    way: &mut Way,
    update: Update<'_>,
    s: u32,
    x: Selected<'_>,
) -> Result<bool, AllocError>
    ensures told { OnOk result (IsOf (rows_of sight.entry.rows.now) update.entry → s < way.old.wants.next → Keeps sight.entry way.old way.new) }
    ensures same { OnOk result (way.new.wants.next ≡ way.old.wants.next) }
{
    if !are_same(x.index, update.index) {
        at_new(sight, way, update.number, s)?;
        return Ok(false);
    }
    stored(alloc, sight, &mut way.paths, update.number)?;
    at_index(alloc, sight, way, update.number, s)?;
    Ok(ends(sight, update.number, x.number))
}

/// The select of an update, which has this number, at the index of a select.
fn at_update(
    alloc: Global,
    sight: Sighted<'_>,
    way: &mut Way,
    update: Update<'_>,
    s: u32,
    x: Selected<'_>,
) -> Result<(), AllocError>
    ensures { OnOk result (IsOf (rows_of sight.entry.rows.now) update.entry → IsSelectAt (rows_of sight.entry.rows.now) x.entry → Keeps sight.entry way.old way.new) }
{
    if !is_below(s, way.wants.next) {
        return Ok(());
    }
    if !is_one(x.maps, update.maps) {
        return Ok(());
    }
    let is_last = at_its_index(alloc, sight, way, update, s, x)?;
    if is_last {
        return Ok(());
    }
    match map_of(sight, update.number) {
        None => Ok(()),
        Some(map) => {
            at_map(alloc, sight, way, update.number, (map, s), x)?;
            Ok(())
        }
    }
}

/// The same of what has this number, if it is an update.
fn at_one(
    alloc: Global,
    sight: Sighted<'_>,
    way: &mut Way,
    y: u32,
    s: u32,
    x: Selected<'_>,
) -> Result<(), AllocError>
    ensures { OnOk result (IsSelectAt (rows_of sight.entry.rows.now) x.entry → Keeps sight.entry way.old way.new) }
{
    match y.checked_sub(sight.count) {
        None => Ok(()),
        Some(u) => match update_at(sight.rows, u) {
            None => Ok(()),
            Some(update) => {
                at_update(alloc, sight, way, update, s, x)?;
                Ok(())
            }
        },
    }
}

/// The same of all of these.
fn at_all(
    alloc: Global,
    sight: Sighted<'_>,
    way: &mut Way,
    maps: &[u32],
    s: u32,
    x: Selected<'_>,
) -> Result<(), AllocError>
    ensures { OnOk result (IsSelectAt (rows_of sight.entry.rows.now) x.entry → Keeps sight.entry way.old way.new) }
{
    for y in maps {
        at_one(alloc, sight, way, *y, s, x)?;
    }
    Ok(())
}

/// The select of a map, which has this number, at the index of a select.
fn step(
    alloc: Global,
    sight: Sighted<'_>,
    way: &mut Way,
    map: u32,
    s: u32,
    x: Selected<'_>,
) -> Result<(), AllocError>
    ensures { OnOk result (IsSelectAt (rows_of sight.entry.rows.now) x.entry → Keeps sight.entry way.old way.new) }
{
    let is_first = is_new(alloc, &mut way.paths, map, x)?;
    if !is_first {
        return Ok(());
    }
    let maps = equals(alloc, sight, &way.paths, map)?;
    at_all(alloc, sight, way, &maps, s, x)?;
    Ok(())
}

/// Along all updates from a select.
fn from_select(
    alloc: Global,
    sight: Sighted<'_>,
    way: &mut Way,
    x: Selected<'_>,
) -> Result<(), AllocError>
    ensures { OnOk result (IsSelectAt (rows_of sight.entry.rows.now) x.entry → Keeps sight.entry way.old way.new) }
{
    begin(sight, &mut way.paths, x.number)?;
    for _ in 0..sight.values.len() {
        match next(&mut way.paths) {
            None => return Ok(()),
            Some((map, s)) => step(alloc, sight, way, map, s, x)?,
        }
    }
    Ok(())
}

/// Along all updates from the select at a place.
pub fn along(alloc: Global, sight: Sighted<'_>, way: &mut Way, a: u32) -> Result<(), AllocError>
    ensures { OnOk result (Keeps sight.entry way.old way.new) }
{
    match select_at(sight.rows, a) {
        None => Ok(()),
        Some(x) => {
            from_select(alloc, sight, way, x)?;
            Ok(())
        }
    }
}
