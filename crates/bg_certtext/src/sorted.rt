//! The order of values, and of tables.
ghost use Rattle.std.specs.Prelude.{◌≡◌, None, map};
ghost use Rattle.std.specs.declared.cmp.Ordering.TheVariants.{Equal};
ghost use Rattle.bg_text.specs.Views.{option_of};
ghost use Rattle.bg_certtext.specs.Views.{part_of, value_of, slot_of, entry_of};
ghost use Rattle.bg_certtext.specs.Spellable.{key_lt, comes_behind, value_eq, are_entries, rises, are_slots};
ghost use Rattle.bg_certtext.specs.Orders.{order_of, part_order, index_order, value_order, item_order, slots_order};

use crate::text::{Entry, Part, Slot, Value};
use std::cmp::Ordering;

/// The order of two of which it is known whether the first is below the second, and whether they are the same.
fn order(is_below: bool, is_same: bool) -> Ordering
    ensures { result ≡ order_of is_below is_same }
{
    if is_below {
        Ordering::Less
    } else if is_same {
        Ordering::Equal
    } else {
        Ordering::Greater
    }
}

fn compare_parts(a: Part<'_>, b: Part<'_>) -> Ordering
    ensures { result ≡ part_order (part_of a.entry) (part_of b.entry) }
{
    match (a, b) {
        (Part::Number(x), Part::Number(y)) => order(x < y, x == y),
        (Part::Element(t, x), Part::Element(u, y)) => order(t == u && x < y, t == u && x == y),
        _ => Ordering::Greater,
    }
}

/// The order of two indices: part by part, then by their lengths.
#[tactic(auto, using(crate::proofs::Orders::index_steps))]
fn compare_indices(a: &[Part<'_>], b: &[Part<'_>]) -> Ordering
    ensures { result ≡ index_order (map part_of a.now) (map part_of b.now) }
{
    let mut left = a;
    let mut right = b;
    while let [x, xs @ ..] = left {
        let [y, ys @ ..] = right else {
            return Ordering::Greater;
        };
        match compare_parts(*x, *y) {
            Ordering::Less => return Ordering::Less,
            Ordering::Equal => {}
            Ordering::Greater => return Ordering::Greater,
        }
        left = xs;
        right = ys;
    }
    order(!right.is_empty(), true)
}

/// The order of two values of one kind; of others the first counts as the greater one.
#[tactic(auto, using(crate::proofs::Orders::value_forms))]
#[cycle(compare_value)]
pub(crate) fn compare(a: &Value<'_>, b: &Value<'_>) -> Ordering
    ensures { result ≡ value_order (value_of a.now) (value_of b.now) }
{
    match a {
        Value::Truth(x) => match b {
            Value::Truth(y) => order(!*x && *y, *x == *y),
            Value::Number(_) => Ordering::Greater,
            Value::Element(_, _) => Ordering::Greater,
            Value::Map(_, _) => Ordering::Greater,
        },
        Value::Number(x) => match b {
            Value::Truth(_) => Ordering::Greater,
            Value::Number(y) => order(*x < *y, *x == *y),
            Value::Element(_, _) => Ordering::Greater,
            Value::Map(_, _) => Ordering::Greater,
        },
        Value::Element(t, x) => match b {
            Value::Truth(_) => Ordering::Greater,
            Value::Number(_) => Ordering::Greater,
            Value::Element(u, y) => order(*t == *u && *x < *y, *t == *u && *x == *y),
            Value::Map(_, _) => Ordering::Greater,
        },
        Value::Map(xs, x) => match b {
            Value::Truth(_) => Ordering::Greater,
            Value::Number(_) => Ordering::Greater,
            Value::Element(_, _) => Ordering::Greater,
            Value::Map(ys, y) => match compare_all(xs, ys) {
                Ordering::Less => Ordering::Less,
                Ordering::Equal => compare(x, y),
                Ordering::Greater => Ordering::Greater,
            },
        },
    }
}

/// The order of two slots: by their indices, then by their values.
#[cycle(compare_value)]
fn compare_slots(a: &Slot<'_>, b: &Slot<'_>) -> Ordering
    ensures { result ≡ item_order (slot_of a.now) (slot_of b.now) }
{
    match compare_indices(&a.index, &b.index) {
        Ordering::Less => Ordering::Less,
        Ordering::Equal => compare(&a.value, &b.value),
        Ordering::Greater => Ordering::Greater,
    }
}

/// The order of slots, one by one, then by their numbers.
#[tactic(auto, using(crate::proofs::Orders::slot_steps))]
#[cycle(compare_value)]
fn compare_all(xs: &[Slot<'_>], ys: &[Slot<'_>]) -> Ordering
    ensures { result ≡ slots_order (map slot_of xs.now) (map slot_of ys.now) Equal }
{
    for i in 0..xs.len() {
        if i >= ys.len() {
            return Ordering::Greater;
        }
        match compare_slots(&xs[i], &ys[i]) {
            Ordering::Less => return Ordering::Less,
            Ordering::Equal => {}
            Ordering::Greater => return Ordering::Greater,
        }
    }
    if xs.len() < ys.len() {
        Ordering::Less
    } else {
        Ordering::Equal
    }
}

/// Whether a key is below another one.
#[tactic(auto, using(crate::proofs::Orders::key_steps))]
fn key_lt(a: &[Value<'_>], b: &[Value<'_>]) -> bool
    ensures { result ≡ key_lt (map value_of a.now) (map value_of b.now) }
{
    let mut left = a;
    let mut right = b;
    while let [x, xs @ ..] = left {
        let [y, ys @ ..] = right else {
            return false;
        };
        match compare(x, y) {
            Ordering::Less => return true,
            Ordering::Equal => {}
            Ordering::Greater => return false,
        }
        left = xs;
        right = ys;
    }
    !right.is_empty()
}

fn comes_behind(before: Option<&Entry<'_>>, key: &[Value<'_>]) -> bool
    ensures { result ≡ comes_behind (option_of (λ e. (entry_of e.now).key) before.entry) (map value_of key.now) }
{
    match before {
        None => true,
        Some(entry) => key_lt(&entry.key, key),
    }
}

/// Whether two values are the same.
#[tactic(auto, using(crate::proofs::Orders::sameness))]
fn is_same(a: &Value<'_>, b: &Value<'_>) -> bool
    ensures { result ≡ value_eq (value_of a.now) (value_of b.now) }
{
    match compare(a, b) {
        Ordering::Less => false,
        Ordering::Equal => true,
        Ordering::Greater => false,
    }
}

#[tactic(auto, using(crate::proofs::Orders::index_below))]
fn comes_before(before: Option<&Slot<'_>>, slot: &Slot<'_>) -> bool
    ensures { result ≡ rises (option_of (λ s. (slot_of s.now).0) before.entry) (slot_of slot.now).0 }
{
    match before {
        None => true,
        Some(s) => match compare_indices(&s.index, &slot.index) {
            Ordering::Less => true,
            Ordering::Equal => false,
            Ordering::Greater => false,
        },
    }
}

/// Whether slots are in the order of their indices, and none has the default's value.
pub(crate) fn are_slots(slots: &[Slot<'_>], default: &Value<'_>) -> bool
    ensures { result ≡ are_slots None (value_of default.now) (map slot_of slots.now) }
{
    let mut before = None;
    for slot in slots {
        if !(comes_before(before, slot) && !is_same(&slot.value, default)) {
            return false;
        }
        before = Some(slot);
    }
    true
}

/// Whether entries are in the order of their keys, and none has the default's value.
pub(crate) fn are_entries(default: &Value<'_>, entries: &[Entry<'_>]) -> bool
    ensures { result ≡ are_entries None (value_of default.now) (map entry_of entries.now) }
{
    let mut before = None;
    for entry in entries {
        if !(comes_behind(before, &entry.key) && !is_same(&entry.value, default)) {
            return false;
        }
        before = Some(entry);
    }
    true
}
