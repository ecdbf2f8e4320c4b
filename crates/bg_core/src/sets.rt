//! The sets of the machine after a step: each is made anew, one truth value for each candidate.
ghost use Rattle.std.specs.Prelude.{◌≡◌, ℕ, true, ◌/◌, ◌^◌, ◌<◌, ◌++◌, ◌&&◌, ◌||◌, not, nat_eq, nat_lt, nat_le, ◌*◌, IfOk};
ghost use Rattle.bg_words.specs.Sets.{has, tabulate};
ghost use Rattle.bg_words.specs.Steps.{looked, cleared, joined};
ghost use Rattle.bg_words.specs.Core.{is_within, without};

use bg_base::{CandId, Copied, Row};
use bg_words::{Entry, Seen};
use std::alloc::{AllocError, Global};

pub(crate) fn has_at(s: &Row<bool>, c: u32) -> bool
    ensures { result ≡ has s.now c }
{
    match s.get(c as usize) {
        Some(b) => *b,
        None => false,
    }
}

// All candidates below n.
pub(crate) fn all_of(alloc: Global, n: u32) -> Result<Row<bool>, AllocError>
    ensures { IfOk result (λ r. r ≡ tabulate n (λ _. true)) }
{
    let mut made = Row::new(alloc);
    for _c in 0..n {
        made.push(true)?;
    }
    Ok(made)
}

fn lacks(missing: &Row<bool>, words: &Row<bool>, i: u64, c: u32) -> bool
    ensures { result ≡ (has missing.now c || (nat_eq (c / 64) i && not (has words.now c))) }
{
    has_at(missing, c) || (u64::from(c / 64) == i && !has_at(words, c))
}

fn shows(snapshot: &Row<bool>, words: &Row<bool>, i: u64, c: u32) -> bool
    ensures { result ≡ ((nat_eq (c / 64) i && has words.now c) || (nat_lt (c / 64) i && has snapshot.now c)) }
{
    (u64::from(c / 64) == i && has_at(words, c)) || (u64::from(c / 64) < i && has_at(snapshot, c))
}

pub(crate) fn missing_after(
    alloc: Global,
    n: u32,
    missing: &Row<bool>,
    words: &Row<bool>,
    i: u64,
) -> Result<Row<bool>, AllocError>
    ensures { IfOk result (λ r. r ≡ tabulate n (λ c. has missing.now c || (nat_eq (c / 64) i && not (has words.now c)))) }
{
    let mut made = Row::new(alloc);
    for c in 0..n {
        made.push(lacks(missing, words, i, c))?;
    }
    Ok(made)
}

pub(crate) fn snapshot_after(
    alloc: Global,
    n: u32,
    snapshot: &Row<bool>,
    words: &Row<bool>,
    i: u64,
) -> Result<Row<bool>, AllocError>
    ensures { IfOk result (λ r. r ≡ tabulate n (λ c. (nat_eq (c / 64) i && has words.now c) || (nat_lt (c / 64) i && has snapshot.now c))) }
{
    let mut made = Row::new(alloc);
    for c in 0..n {
        made.push(shows(snapshot, words, i, c))?;
    }
    Ok(made)
}

pub(crate) fn look(
    alloc: Global,
    n: u32,
    v: &Seen,
    i: u64,
    words: &Row<bool>,
) -> Result<Seen, AllocError>
    requires { i < 2 ^ 63 }
    ensures { IfOk result (λ r. r ≡ looked n v.now i (has words.now)) }
{
    let missing = missing_after(alloc, n, &v.missing, words, i)?;
    let snapshot = snapshot_after(alloc, n, &v.snapshot, words, i)?;
    let entries = v.entries.copied(alloc)?;
    Ok(Seen {
        missing,
        snapshot,
        loaded: i + 1,
        pending: v.pending,
        entries,
    })
}

pub(crate) fn whole(n: u32, loaded: u64) -> bool
    ensures { result ≡ nat_le n (64 * loaded) }
{
    u128::from(n) <= 64 * u128::from(loaded)
}

fn fits(s: &Row<bool>, t: &Row<bool>, c: u32) -> bool
    ensures { result ≡ (not (has s.now c) || has t.now c) }
{
    !has_at(s, c) || has_at(t, c)
}

pub(crate) fn within(n: u32, s: &Row<bool>, t: &Row<bool>) -> bool
    ensures { result ≡ is_within n s.now t.now }
{
    let mut all = true;
    for c in 0..n {
        all = all && fits(s, t, c);
    }
    all
}

fn stays(words: &Row<bool>, x: u32, c: u32) -> bool
    ensures { result ≡ (has words.now c && not (nat_eq c x)) }
{
    has_at(words, c) && c != x
}

pub(crate) fn cut(alloc: Global, n: u32, words: &Row<bool>, x: u32) -> Result<Row<bool>, AllocError>
    ensures { IfOk result (λ r. r ≡ without n words.now x) }
{
    let mut made = Row::new(alloc);
    for c in 0..n {
        made.push(stays(words, x, c))?;
    }
    Ok(made)
}

fn either(s: &Row<bool>, t: &Row<bool>, c: u32) -> bool
    ensures { result ≡ (has s.now c || has t.now c) }
{
    has_at(s, c) || has_at(t, c)
}

fn both(alloc: Global, n: u32, s: &Row<bool>, t: &Row<bool>) -> Result<Row<bool>, AllocError>
    ensures { IfOk result (λ r. r ≡ tabulate n (λ c. has s.now c || has t.now c)) }
{
    let mut made = Row::new(alloc);
    for c in 0..n {
        made.push(either(s, t, c))?;
    }
    Ok(made)
}

fn gone(s: &Row<bool>, x: u32, c: u32) -> bool
    ensures { result ≡ (has s.now c || nat_eq c x) }
{
    has_at(s, c) || c == x
}

fn with_gone(alloc: Global, n: u32, s: &Row<bool>, x: u32) -> Result<Row<bool>, AllocError>
    ensures { IfOk result (λ r. r ≡ tabulate n (λ c. has s.now c || nat_eq c x)) }
{
    let mut made = Row::new(alloc);
    for c in 0..n {
        made.push(gone(s, x, c))?;
    }
    Ok(made)
}

pub(crate) fn clear_seen(
    alloc: Global,
    n: u32,
    v: &Seen,
    number: u64,
    x: u32,
    was_there: bool,
) -> Result<Seen, AllocError>
    ensures { IfOk result (λ r. r ≡ cleared n v.now number x was_there) }
{
    let missing = with_gone(alloc, n, &v.missing, x)?;
    let snapshot = v.snapshot.copied(alloc)?;
    let mut seen = v.copied(alloc)?;
    seen.entries.push(Entry {
        number,
        cand: CandId(x),
        snapshot,
        was_there,
    })?;
    seen.missing = missing;
    seen.pending = None;
    Ok(seen)
}

// s, and then t.
pub(crate) fn appended<T: Copied>(
    alloc: Global,
    s: &Row<T>,
    t: &Row<T>,
) -> Result<Row<T>, AllocError>
    ensures { IfOk result (λ r. r ≡ s.now ++ t.now) }
{
    let mut made = s.copied(alloc)?;
    for i in 0..t.len() {
        let Some(x) = t.get(i) else { unreachable!() };
        made.push(x.copied(alloc)?)?;
    }
    Ok(made)
}

pub(crate) fn join_seen(alloc: Global, n: u32, v: &Seen, w: &Seen) -> Result<Seen, AllocError>
    ensures { IfOk result (λ r. r ≡ joined n v.now w.now) }
{
    let missing = both(alloc, n, &v.missing, &w.missing)?;
    let snapshot = v.snapshot.copied(alloc)?;
    let entries = appended(alloc, &v.entries, &w.entries)?;
    Ok(Seen {
        missing,
        snapshot,
        loaded: v.loaded,
        pending: v.pending,
        entries,
    })
}
