//! Nodes of pairs of unique constants.
ghost use Rattle.std.specs.Prelude.{ℕ, ◌+◌, ◌*◌, ◌<◌, ◌≡◌, length, drop, get_or, map, OnOk};
ghost use Rattle.bg_kinds.specs.Views.{ref_in, ref_of};
ghost use Rattle.bg_opening.specs.Constants.{unique_of};
ghost use Rattle.bg_opening.specs.Nexts.{code_of, AreNexts};
ghost use Rattle.bg_expanded.specs.Bodies.{IsAlike, Adds};
ghost use Rattle.bg_expanded.specs.Pairs.{one_with, count_with, pair_count, AreCounts};

use crate::count::{Count, add_own, read_at};
use bg_kinds::{TypeRef, is_same_type};
use bg_opening::{Unique, next_of, nexts_of};
use std::alloc::{AllocError, Global};

/// The nodes of `a != b`.
const APART_NODES: u64 = 3;

/// One, where both types are the same.
fn one_with(t: TypeRef<'_>, u: TypeRef<'_>) -> u64
    ensures { result ≡ one_with (ref_of t.entry) (ref_of u.entry) }
{
    if is_same_type(t, u) { 1 } else { 0 }
}

/// How many of these are of this type, one by one.
fn each_with(t: TypeRef<'_>, told: &[Unique]) -> u64
    ensures { IsAlike result (count_with (ref_of t.entry) (map unique_of told.now)) }
{
    let mut count = 0u64;
    for u in told {
        count = count.saturating_add(one_with(t, u.kind.as_ref()));
    }
    count
}

/// How many from a place on are of this type: where the one there is, one more than are behind it, which was counted.
fn count_from(told: &[Unique], counts: &[u64], t: TypeRef<'_>, at: usize) -> u64
    requires at { at < length told.now }
    requires counts { AreCounts told.now at counts.now }
    ensures { IsAlike result (count_with (ref_of t.entry) (map unique_of (drop at told.now))) }
{
    if is_same_type(t, told[at].kind.as_ref()) {
        read_at(counts, told.len() - 1 - at).saturating_add(1)
    } else {
        each_with(t, &told[at..])
    }
}

/// How many behind a constant are of its type.
fn count_behind(
    told: &[Unique],
    nexts: &[usize],
    counts: &[u64],
    first: &Unique,
    place: usize,
) -> u64
    requires nexts { AreNexts (map code_of told.now) nexts.now }
    requires counts { AreCounts told.now (place + 1) counts.now }
    requires place { place < length told.now }
    requires first { first.now ≡ get_or told.now place first.now }
    ensures { IsAlike result (count_with (ref_in first.now.kind) (map unique_of (drop (place + 1) told.now))) }
{
    let at = next_of(nexts, place);
    if at < told.len() {
        count_from(told, counts, first.kind.as_ref(), at)
    } else {
        0
    }
}

/// Adds the nodes of so many constants' being different from one.
fn add_apart(count: &mut Count, n: u64)
    ensures { Adds count.old count.new (λ ws. 3 * n) }
{
    add_own(count, n.saturating_mul(APART_NODES));
}

/// Adds the nodes of constants' being pairwise different that are of one type. Time and memory are linear in the number of constants, but
/// where types that differ have the same code.
///
/// Only want of memory is an error.
pub fn add_pairs(alloc: Global, count: &mut Count, told: &[Unique]) -> Result<(), AllocError>
    ensures { OnOk result (Adds count.old count.new (λ ws. 3 * pair_count (map unique_of told.now))) }
{
    let nexts = nexts_of(alloc, told)?;
    let mut counts = Vec::new(alloc);
    for done in 0..told.len() {
        let place = told.len() - 1 - done;
        let n = count_behind(told, &nexts, &counts, &told[place], place);
        add_apart(count, n);
        counts.push(n)?;
    }
    Ok(())
}
