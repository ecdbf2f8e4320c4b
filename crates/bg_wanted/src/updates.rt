//! What updates want.
ghost use Rattle.std.specs.Prelude.{◌≡◌, ◌+◌, ◌<◌, ◌∷◌, [], List, Some, None, true, false, ◌==◌, length, slice_get, IfOk, OnOk, MatchOption};
ghost use Rattle.bg_ast.specs.Values.{Ty};
ghost use Rattle.bg_ast.specs.Syntax.{Fun};
ghost use Rattle.bg_sense.specs.Eval.{vals_eq};
ghost use Rattle.bg_terms.specs.Terms.{Term};
ghost use Rattle.bg_term_table.specs.Views.{meanings, listed, terms_in};
ghost use Rattle.bg_wanted.specs.Scalars.{scalars_in};
ghost use Rattle.bg_wanted.specs.declared.class.Class.TheVariants.{Select};
ghost use Rattle.bg_wanted.specs.Rows.{RowOf, row_of};
ghost use Rattle.bg_wanted.specs.Firsts.{first_row, HasFirsts, Agreeing};
ghost use Rattle.bg_wanted.specs.Selects.{HasSelects};
ghost use Rattle.bg_wanted.specs.Updates.{AreSettled};
ghost use Rattle.bg_wanted.specs.Telling.{AreTold, Fits};
ghost use Rattle.bg_wanted.specs.Asked.{looked_rows, IsOf, IsHereOf, IsAgreedAt, AreAgreed, IsSelectOf, IsFirst, IsUnseen, is_place, IsAsked, IsRight, AreRight, Goes, first_local, map_read_in, is_update, has_scalar, are_alike, index_in, index_there, IsAtIndex, has_two, IsUpdateWith, IsUpdateOf, IsRightRow};

use crate::class::{Class, number};
use crate::first::{Key, is_same};
use crate::looked::{Looked, Update};
use crate::maps::places;
use crate::row::Row;
use crate::wants::{Wants, select, tell_elsewhere, tell_here};
use bg_ast::resolved::Expr;
use bg_scalar::Scalar;
use bg_term_table::local;
use std::alloc::{AllocError, Global};

/// A select of maps of the type with this number from the map with this scalar at this index.
fn select_key(alloc: Global, maps: u32, map: Scalar, index: &[Scalar]) -> Result<Key, AllocError>
    ensures class { IfOk result (λ k. k.0 ≡ Select maps) }
    ensures args { IfOk result (λ k. k.1.items ≡ map ∷ index.now) }
{
    let mut args = Vec::new(alloc);
    args.push(map)?;
    args.extend_from_slice(index)?;
    Ok((Class::Select(maps), args))
}

/// The place and the scalar of the first select of such maps from a map at an index.
fn first(
    alloc: Global,
    looked: Looked<'_>,
    maps: u32,
    map: Scalar,
    index: &[Scalar],
) -> Result<Option<(u32, Scalar)>, AllocError>
    ensures { IfOk result (λ found. (rs : List RowOf) → HasFirsts looked.entry.firsts.now.known rs → found ≡ first_row (Select maps, map ∷ index.now) 0 rs) }
{
    let key = select_key(alloc, maps, map, index)?;
    Ok(looked.firsts.known.get(&key).copied())
}

/// The number of a term behind so many incarnations; 2^32 count as want of memory.
fn behind(count: u32, a: u32) -> Result<u32, AllocError>
    ensures { IfOk result (λ n. n ≡ count + a) }
{
    match count.checked_add(a) {
        Some(n) => Ok(n),
        None => Err(AllocError),
    }
}

/// Whether what is found has this scalar.
fn has_scalar(found: Option<(u32, Scalar)>, x: Scalar) -> bool
    ensures { result ≡ has_scalar found x }
{
    match found {
        None => false,
        Some((_, y)) => is_same(y, x),
    }
}

/// Whether the first select of an update at its own index has its new value.
fn is_here(alloc: Global, looked: Looked<'_>, update: Update<'_>) -> Result<bool, AllocError>
    ensures so { IfOk result (λ b. HasFirsts looked.entry.firsts.now.known (looked_rows looked.entry) → b ≡ true → IsHereOf (looked_rows looked.entry) update.entry) }
    ensures not { IfOk result (λ b. HasFirsts looked.entry.firsts.now.known (looked_rows looked.entry) → b ≡ false → IsOf (looked_rows looked.entry) update.entry → AreSettled (looked_rows looked.entry) → ⊥) }
{
    let found = first(alloc, looked, update.maps, update.value, update.index)?;
    Ok(has_scalar(found, update.new))
}

/// The select of an update at its own index, where no select there has its new value.
fn ask_here(
    alloc: Global,
    looked: Looked<'_>,
    wants: &mut Wants,
    update: Update<'_>,
) -> Result<(), AllocError>
    ensures { OnOk result (IsOf (looked_rows looked.entry) update.entry → Goes looked.entry wants.old wants.new (IsHereOf (looked_rows looked.entry) update.entry)) }
{
    let is_told = is_here(alloc, looked, update)?;
    if is_told {
        return Ok(());
    }
    let map = behind(looked.count, update.number)?;
    let own = select(wants, map, update.number)?;
    tell_here(wants, update.number, own)?;
    Ok(())
}

/// Whether two that are found have one scalar.
fn are_alike(x: Option<(u32, Scalar)>, y: Option<(u32, Scalar)>) -> bool
    ensures { result ≡ are_alike x y }
{
    match x {
        None => false,
        Some((_, x)) => has_scalar(y, x),
    }
}

/// Whether both maps of an update have one scalar at an index, where both are selected from there.
fn do_agree(
    alloc: Global,
    looked: Looked<'_>,
    update: Update<'_>,
    index: &[Scalar],
) -> Result<bool, AllocError>
    ensures { IfOk result (λ b. HasFirsts looked.entry.firsts.now.known (looked_rows looked.entry) → b ≡ are_alike (first_row (Select update.entry.maps, update.entry.value ∷ index.now) 0 (looked_rows looked.entry)) (first_row (Select update.entry.maps, update.entry.before ∷ index.now) 0 (looked_rows looked.entry))) }
{
    let new = first(alloc, looked, update.maps, update.value, index)?;
    let old = first(alloc, looked, update.maps, update.before, index)?;
    Ok(are_alike(new, old))
}

/// The number that the first of these reads, if it reads one.
pub fn first_read(args: &[Expr]) -> Option<u32>
    ensures { result ≡ first_local (listed (meanings args.now)) }
{
    match args.split_first() {
        None => None,
        Some((x, _)) => local(x),
    }
}

/// The number of the map that a term selects from, if it selects from one.
fn map_read(looked: Looked<'_>, a: u32) -> Option<u32>
    ensures { (fs : List Fun) → result ≡ map_read_in (slice_get (terms_in fs looked.entry.terms.now) a) }
{
    match looked.terms.get(a as usize) {
        None => None,
        Some(t) => first_read(&t.args),
    }
}

/// The select of the map of an update at the index of one of the update.
fn at_update(wants: &mut Wants, u: u32, map: u32, a: u32) -> Result<(), AllocError>
    ensures told { OnOk result ((incs : List Ty) (ts : List Term) → Fits incs ts map a → u < length ts → a < length ts → AreTold incs ts wants.old [] → AreTold incs ts wants.new []) }
    ensures some { OnOk result (wants.new.made.items ≡ [] → ⊥) }
{
    let r = select(wants, map, a)?;
    tell_elsewhere(wants, u, a, r)?;
    Ok(())
}

/// The select of an update at the index of one of its map.
fn at_map(wants: &mut Wants, u: u32, update: u32, a: u32) -> Result<(), AllocError>
    ensures told { OnOk result ((incs : List Ty) (ts : List Term) → Fits incs ts update a → u < length ts → a < length ts → AreTold incs ts wants.old [] → AreTold incs ts wants.new []) }
    ensures some { OnOk result (wants.new.made.items ≡ [] → ⊥) }
{
    let s = select(wants, update, a)?;
    tell_elsewhere(wants, u, s, a)?;
    Ok(())
}

/// The selects of an update and of its map at the index of another select.
fn at_both(wants: &mut Wants, u: u32, update: u32, map: u32, a: u32) -> Result<(), AllocError>
    ensures told { OnOk result ((incs : List Ty) (ts : List Term) → Fits incs ts update a → Fits incs ts map a → u < length ts → AreTold incs ts wants.old [] → AreTold incs ts wants.new []) }
    ensures some { OnOk result (wants.new.made.items ≡ [] → ⊥) }
{
    let s = select(wants, update, a)?;
    let r = select(wants, map, a)?;
    tell_elsewhere(wants, u, s, r)?;
    Ok(())
}

/// The same, where the select at whose index they are selects from the map with this number.
fn ask_at(
    wants: &mut Wants,
    u: u32,
    update: u32,
    map: u32,
    from: Option<u32>,
    a: u32,
) -> Result<(), AllocError>
    ensures told { OnOk result ((incs : List Ty) (ts : List Term) → Fits incs ts update a → Fits incs ts map a → u < length ts → a < length ts → AreTold incs ts wants.old [] → AreTold incs ts wants.new []) }
    ensures some { OnOk result (wants.new.made.items ≡ [] → ⊥) }
{
    if from == Some(update) {
        return at_update(wants, u, map, a);
    }
    if from == Some(map) {
        return at_map(wants, u, update, a);
    }
    at_both(wants, u, update, map, a)
}

/// The selects of an update and of its map at the index of a select from one of them.
fn ask_elsewhere(looked: Looked<'_>, wants: &mut Wants, u: u32, a: u32) -> Result<(), AllocError>
    ensures told { OnOk result ((fs : List Fun) (incs : List Ty) → IsAsked fs incs looked.entry u a → AreTold incs (terms_in fs looked.entry.terms.now) wants.old [] → AreTold incs (terms_in fs looked.entry.terms.now) wants.new []) }
    ensures some { OnOk result (wants.new.made.items ≡ [] → ⊥) }
{
    let update = behind(looked.count, u)?;
    let from = map_read(looked, a);
    match map_read(looked, u) {
        None => Err(AllocError),
        Some(map) => ask_at(wants, u, update, map, from, a),
    }
}

/// Whether they are as many.
fn are_as_many(xs: &[Scalar], ys: &[Scalar]) -> bool
    ensures { result ≡ (length xs.now == length ys.now) }
{
    xs.len() == ys.len()
}

/// Whether they are the same.
pub fn are_same(xs: &[Scalar], ys: &[Scalar]) -> bool
    ensures { result ≡ vals_eq (scalars_in xs.now) (scalars_in ys.now) }
{
    if !are_as_many(xs, ys) {
        return false;
    }
    let mut i = 0;
    while i < xs.len() {
        if !is_same(xs[i], ys[i]) {
            return false;
        }
        i += 1;
    }
    true
}

/// Whether the row at this place is what is found.
fn is_at(a: u32, found: Option<(u32, Scalar)>) -> bool
    ensures { result ≡ is_place a found }
{
    match found {
        None => false,
        Some((b, _)) => a == b,
    }
}

/// Whether the row at this place is the first of such a select.
fn is_first(
    alloc: Global,
    looked: Looked<'_>,
    maps: u32,
    map: Scalar,
    index: &[Scalar],
    a: u32,
) -> Result<bool, AllocError>
    ensures { IfOk result (λ b. (rs : List RowOf) → HasFirsts looked.entry.firsts.now.known rs → b ≡ is_place a (first_row (Select maps, map ∷ index.now) 0 rs)) }
{
    let found = first(alloc, looked, maps, map, index)?;
    Ok(is_at(a, found))
}

/// The index of a select.
fn index_of(args: &[Scalar]) -> Option<&[Scalar]>
    ensures { MatchOption result (index_in args.now ≡ None) (λ k. index_in args.now ≡ Some k.now) }
{
    match args.split_first() {
        None => None,
        Some((_, index)) => Some(index),
    }
}

/// The index at which the row at a place selects, if it is one.
fn index_at(looked: Looked<'_>, a: u32) -> Option<&[Scalar]>
    ensures { MatchOption result (index_there (slice_get (looked_rows looked.entry) a) ≡ None) (λ k. index_there (slice_get (looked_rows looked.entry) a) ≡ Some k.now) }
{
    match looked.rows.get(a as usize) {
        None => None,
        Some(row) => index_of(&row.args),
    }
}

/// Whether the select from an update at this index, which has this place, is the first of its kind, the index isn't the update's, and both
/// maps don't agree there.
fn is_open_new(
    alloc: Global,
    looked: Looked<'_>,
    update: Update<'_>,
    index: &[Scalar],
    a: u32,
) -> Result<bool, AllocError>
    ensures so { IfOk result (λ b. HasFirsts looked.entry.firsts.now.known (looked_rows looked.entry) → b ≡ true → Agreeing (looked_rows looked.entry) → IsAtIndex looked.entry update.entry update.entry.value a index.now → IsOf (looked_rows looked.entry) update.entry → AreSettled (looked_rows looked.entry) → ⊥) }
    ensures not { IfOk result (λ b. HasFirsts looked.entry.firsts.now.known (looked_rows looked.entry) → b ≡ false → IsAtIndex looked.entry update.entry update.entry.value a index.now → IsFirst (looked_rows looked.entry) a → IsAgreedAt (looked_rows looked.entry) update.entry a) }
{
    if are_same(index, update.index) {
        return Ok(false);
    }
    let is_first_one = is_first(alloc, looked, update.maps, update.value, index, a)?;
    if !is_first_one {
        return Ok(false);
    }
    let agree = do_agree(alloc, looked, update, index)?;
    Ok(!agree)
}

/// Whether the select from the map of an update at this index, which has this place, is the first of its kind, the index isn't the update's,
/// and the update isn't selected from there.
fn is_open_old(
    alloc: Global,
    looked: Looked<'_>,
    update: Update<'_>,
    index: &[Scalar],
    a: u32,
) -> Result<bool, AllocError>
    ensures so { IfOk result (λ b. HasFirsts looked.entry.firsts.now.known (looked_rows looked.entry) → b ≡ true → Agreeing (looked_rows looked.entry) → IsAtIndex looked.entry update.entry update.entry.before a index.now → IsOf (looked_rows looked.entry) update.entry → AreSettled (looked_rows looked.entry) → ⊥) }
    ensures not { IfOk result (λ b. HasFirsts looked.entry.firsts.now.known (looked_rows looked.entry) → b ≡ false → IsAtIndex looked.entry update.entry update.entry.before a index.now → IsFirst (looked_rows looked.entry) a → IsUnseen looked.entry update.entry a → IsAgreedAt (looked_rows looked.entry) update.entry a) }
{
    if are_same(index, update.index) {
        return Ok(false);
    }
    let is_first_one = is_first(alloc, looked, update.maps, update.before, index, a)?;
    if !is_first_one {
        return Ok(false);
    }
    let found = first(alloc, looked, update.maps, update.value, index)?;
    Ok(found.is_none())
}

/// The same at the index of a select from an update that is the first of its kind, where the index isn't the update's and both maps don't
/// agree there.
fn at_new(
    alloc: Global,
    looked: Looked<'_>,
    wants: &mut Wants,
    update: Update<'_>,
    a: u32,
) -> Result<(), AllocError>
    ensures { OnOk result (IsOf (looked_rows looked.entry) update.entry → IsSelectOf looked.entry update.entry update.entry.value a → Goes looked.entry wants.old wants.new (IsFirst (looked_rows looked.entry) a → IsAgreedAt (looked_rows looked.entry) update.entry a)) }
{
    match index_at(looked, a) {
        None => Ok(()),
        Some(index) => {
            let is_open = is_open_new(alloc, looked, update, index, a)?;
            if !is_open {
                return Ok(());
            }
            ask_elsewhere(looked, wants, update.number, a)?;
            Ok(())
        }
    }
}

/// The same at the index of a select from the map of an update, where the update isn't selected from.
fn at_old(
    alloc: Global,
    looked: Looked<'_>,
    wants: &mut Wants,
    update: Update<'_>,
    a: u32,
) -> Result<(), AllocError>
    ensures { OnOk result (IsOf (looked_rows looked.entry) update.entry → IsSelectOf looked.entry update.entry update.entry.before a → Goes looked.entry wants.old wants.new (IsFirst (looked_rows looked.entry) a → IsUnseen looked.entry update.entry a → IsAgreedAt (looked_rows looked.entry) update.entry a)) }
{
    match index_at(looked, a) {
        None => Ok(()),
        Some(index) => {
            let is_open = is_open_old(alloc, looked, update, index, a)?;
            if !is_open {
                return Ok(());
            }
            ask_elsewhere(looked, wants, update.number, a)?;
            Ok(())
        }
    }
}

/// The same of each select from an update.
fn at_all_new(
    alloc: Global,
    looked: Looked<'_>,
    wants: &mut Wants,
    update: Update<'_>,
) -> Result<(), AllocError>
    ensures { OnOk result (IsOf (looked_rows looked.entry) update.entry → HasSelects looked.entry.selects.now (looked_rows looked.entry) → Goes looked.entry wants.old wants.new (AreAgreed looked.entry update.entry update.entry.value)) }
{
    let all = places(looked.selects, (update.maps, update.value));
    for a in all {
        at_new(alloc, looked, wants, update, *a)?;
    }
    Ok(())
}

/// The same of each select from the map of an update.
fn at_all_old(
    alloc: Global,
    looked: Looked<'_>,
    wants: &mut Wants,
    update: Update<'_>,
) -> Result<(), AllocError>
    ensures { OnOk result (IsOf (looked_rows looked.entry) update.entry → HasSelects looked.entry.selects.now (looked_rows looked.entry) → Goes looked.entry wants.old wants.new (AreAgreed looked.entry update.entry update.entry.value → AreAgreed looked.entry update.entry update.entry.before)) }
{
    let all = places(looked.selects, (update.maps, update.before));
    for a in all {
        at_old(alloc, looked, wants, update, *a)?;
    }
    Ok(())
}

/// What an update wants: its select at its index, and its selects and those of its map at other indices at which one of them is selected
/// from, where the first selects there don't say what they should.
fn ask(
    alloc: Global,
    looked: Looked<'_>,
    wants: &mut Wants,
    update: Update<'_>,
) -> Result<(), AllocError>
    ensures { OnOk result (IsOf (looked_rows looked.entry) update.entry → HasSelects looked.entry.selects.now (looked_rows looked.entry) → Goes looked.entry wants.old wants.new (IsRight (looked_rows looked.entry) update.entry)) }
{
    ask_here(alloc, looked, wants, update)?;
    at_all_new(alloc, looked, wants, update)?;
    at_all_old(alloc, looked, wants, update)?;
    Ok(())
}

/// The update with this number and scalar, of maps of the type with this number, if it has an argument more than its map, which has this
/// scalar.
fn update_from(
    number: u32,
    maps: u32,
    value: Scalar,
    before: Scalar,
    behind: &[Scalar],
) -> Option<Update<'_>>
    ensures { MatchOption result (has_two (before ∷ behind.now) ≡ false) (λ u. IsUpdateWith number maps value (before ∷ behind.now) u) }
{
    match behind.split_first() {
        None => None,
        Some((new, index)) => Some(Update {
            number,
            maps,
            value,
            before,
            new: *new,
            index,
        }),
    }
}

/// The same, if it has these arguments.
fn update_with(number: u32, maps: u32, value: Scalar, args: &[Scalar]) -> Option<Update<'_>>
    ensures { MatchOption result (has_two args.now ≡ false) (λ u. IsUpdateWith number maps value args.now u) }
{
    match args.split_first() {
        None => None,
        Some((before, behind)) => update_from(number, maps, value, *before, behind),
    }
}

/// The update of a row, if it is one.
pub fn update_of(row: &Row, number: u32) -> Option<Update<'_>>
    ensures { MatchOption result (is_update (row_of row.now) ≡ false) (λ u. IsUpdateOf number (row_of row.now) u) }
{
    match row.class {
        Class::Function(_) => None,
        Class::Select(_) => None,
        Class::Update(maps) => update_with(number, maps, row.value, &row.args),
        Class::Part(_, _) => None,
    }
}

/// What the row at this place wants, if it is an update.
fn ask_row(
    alloc: Global,
    looked: Looked<'_>,
    wants: &mut Wants,
    row: &Row,
    u: u32,
) -> Result<(), AllocError>
    ensures { OnOk result (slice_get (looked_rows looked.entry) u ≡ Some (row_of row.now) → HasSelects looked.entry.selects.now (looked_rows looked.entry) → Goes looked.entry wants.old wants.new (IsRightRow (looked_rows looked.entry) (row_of row.now))) }
{
    match update_of(row, u) {
        None => Ok(()),
        Some(update) => {
            ask(alloc, looked, wants, update)?;
            Ok(())
        }
    }
}

/// What all updates want.
pub fn ask_all(alloc: Global, looked: Looked<'_>, wants: &mut Wants) -> Result<(), AllocError>
    ensures { OnOk result (HasSelects looked.entry.selects.now (looked_rows looked.entry) → Goes looked.entry wants.old wants.new (AreRight (looked_rows looked.entry))) }
{
    let mut u = 0;
    while u < looked.rows.len() {
        let place = number(u)?;
        ask_row(alloc, looked, wants, &looked.rows[u], place)?;
        u += 1;
    }
    Ok(())
}
