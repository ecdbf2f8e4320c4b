//! Which instances of terms are false at a leaf.
ghost use Rattle.std.specs.Prelude.{◌≡◌, ◌==◌, true, MatchOption};
ghost use Rattle.bg_wanted.specs.declared.class.Class.TheVariants.{Select};
ghost use Rattle.bg_wanted.specs.Rows.{row_of, rows_of};
ghost use Rattle.bg_wanted.specs.Asked.{IsOf};
ghost use Rattle.bg_wanted.specs.Chased.{IsSelect, IsSelectAt, IsNewWrong, IsOldWrong, IsNewLost, IsOldLost, AreWrong, IsPairLost};

use crate::class::Class;
use crate::first::is_same;
use crate::looked::Update;
use crate::row::Row;
use crate::updates::{are_same, update_of};
use bg_scalar::Scalar;

/// The place of a select, the type of its maps, its map, its index and its scalar.
#[derive(Clone, Copy)]
pub struct Selected<'a> {
    pub number: u32,
    pub maps: u32,
    pub map: Scalar,
    pub index: &'a [Scalar],
    pub value: Scalar,
}

/// The select at this place with these arguments.
fn select_with(number: u32, maps: u32, args: &[Scalar], value: Scalar) -> Option<Selected<'_>>
    ensures { MatchOption result (Unit {0}) (λ x. IsSelect number (Select maps) args.now value x) }
{
    match args.split_first() {
        None => None,
        Some((map, index)) => Some(Selected {
            number,
            maps,
            map: *map,
            index,
            value,
        }),
    }
}

/// The select of a row, if it is one.
fn select_of(row: &Row, number: u32) -> Option<Selected<'_>>
    ensures { MatchOption result (Unit {0}) (λ x. IsSelect number row.now.class row.now.args.items row.now.value x) }
{
    match row.class {
        Class::Function(_) => None,
        Class::Select(maps) => select_with(number, maps, &row.args, row.value),
        Class::Update(_) => None,
        Class::Part(_, _) => None,
    }
}

/// The select that the row at this place is, if it is one.
pub fn select_at(rows: &[Row], a: u32) -> Option<Selected<'_>>
    ensures { MatchOption result (Unit {0}) (λ x. IsSelectAt (rows_of rows.now) x × (x.number ≡ a)) }
{
    match rows.get(a as usize) {
        None => None,
        Some(row) => select_of(row, a),
    }
}

/// The update that the row at this place is, if it is one.
pub fn update_at(rows: &[Row], u: u32) -> Option<Update<'_>>
    ensures { MatchOption result (Unit {0}) (λ x. IsOf (rows_of rows.now) x × (x.number ≡ u)) }
{
    match rows.get(u as usize) {
        None => None,
        Some(row) => update_of(row, u),
    }
}

/// Whether these are one number.
pub fn is_one(a: u32, b: u32) -> bool
    ensures { result ≡ (a == b) }
{
    a == b
}

/// Whether a select is of an update at its index, and hasn't the new value.
fn is_new_wrong(update: Update<'_>, x: Selected<'_>) -> bool
    ensures { result ≡ true → IsNewWrong update.entry x.entry }
{
    if !is_one(x.maps, update.maps) {
        return false;
    }
    if !is_same(x.map, update.value) {
        return false;
    }
    if !are_same(x.index, update.index) {
        return false;
    }
    !is_same(x.value, update.new)
}

/// Whether two selects are of an update and of its map, at one index that isn't the update's, and have different values.
fn is_old_wrong(update: Update<'_>, x: Selected<'_>, y: Selected<'_>) -> bool
    ensures { result ≡ true → IsOldWrong update.entry x.entry y.entry }
{
    if !is_one(x.maps, update.maps) {
        return false;
    }
    if !is_one(y.maps, update.maps) {
        return false;
    }
    if !is_same(x.map, update.value) {
        return false;
    }
    if !is_same(y.map, update.before) {
        return false;
    }
    if are_same(x.index, update.index) {
        return false;
    }
    if !are_same(x.index, y.index) {
        return false;
    }
    !is_same(x.value, y.value)
}

/// Whether the select at a place is of the update with this number at its index, and hasn't the new value.
pub fn is_new_lost(rows: &[Row], u: u32, s: u32) -> bool
    ensures { result ≡ true → IsNewLost (rows_of rows.now) u s }
{
    match update_at(rows, u) {
        None => false,
        Some(update) => match select_at(rows, s) {
            None => false,
            Some(x) => is_new_wrong(update, x),
        },
    }
}

/// Whether the selects at these places are of the update with this number and of its map, at one index that isn't the update's, and have
/// different values.
pub fn is_old_lost(rows: &[Row], u: u32, s: u32, r: u32) -> bool
    ensures { result ≡ true → IsOldLost (rows_of rows.now) u s r }
{
    match update_at(rows, u) {
        None => false,
        Some(update) => match select_at(rows, s) {
            None => false,
            Some(x) => match select_at(rows, r) {
                None => false,
                Some(y) => is_old_wrong(update, x, y),
            },
        },
    }
}

/// Whether these are one function, or the selects or updates of maps of one type.
fn is_one_class(a: Class, b: Class) -> bool
    ensures { result ≡ true → a ≡ b }
{
    match a {
        Class::Function(f) => match b {
            Class::Function(g) => is_one(f, g),
            Class::Select(_) => false,
            Class::Update(_) => false,
            Class::Part(_, _) => false,
        },
        Class::Select(m) => match b {
            Class::Function(_) => false,
            Class::Select(n) => is_one(m, n),
            Class::Update(_) => false,
            Class::Part(_, _) => false,
        },
        Class::Update(m) => match b {
            Class::Function(_) => false,
            Class::Select(_) => false,
            Class::Update(n) => is_one(m, n),
            Class::Part(_, _) => false,
        },
        Class::Part(_, _) => false,
    }
}

/// Whether two rows are of one function, or are selects or updates of maps of one type, with one row of arguments, and differ.
fn is_pair_wrong(x: &Row, y: &Row) -> bool
    ensures { result ≡ true → AreWrong (row_of x.now) (row_of y.now) }
{
    if !is_one_class(x.class, y.class) {
        return false;
    }
    if !are_same(&x.args, &y.args) {
        return false;
    }
    !is_same(x.value, y.value)
}

/// The same of the rows at these places.
pub fn is_pair_lost(rows: &[Row], a: u32, b: u32) -> bool
    ensures { result ≡ true → IsPairLost (rows_of rows.now) a b }
{
    match rows.get(a as usize) {
        None => false,
        Some(x) => match rows.get(b as usize) {
            None => false,
            Some(y) => is_pair_wrong(x, y),
        },
    }
}
