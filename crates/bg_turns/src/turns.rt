//! Calls by turns.
ghost use Rattle.std.specs.Prelude.{◌≡◌, ℕ, ◌<◌, All, vec_len, IfOk};
ghost use Rattle.std.specs.Fork.{GivesEach};
ghost use Rattle.bg_turns.specs.Turns.{IsOf, AreOf};

use crate::crew::call_each;
use crate::gather::gathered;
use std::alloc::{AllocError, Global};
use std::sync::atomic::{AtomicU64, Ordering};
use std::thread::Threads;

/// The numbers below `n` from both ends: the last one, the first, the last but one, the second, and so on.
fn from_the_ends(n: usize, turn: usize) -> usize
    requires { turn < n }
    ensures { result < n }
{
    let half = turn / 2;
    if turn % 2 == 0 { n - 1 - half } else { half }
}

/// What calls of `f` give with the numbers below `n` that this thread takes, from both ends, until all are taken.
fn by_turns<X: Drop, F: Fn(usize) -> X>(
    alloc: Global,
    f: &F,
    n: usize,
    next: &AtomicU64,
) -> Result<Vec<(usize, X)>, AllocError>
    requires { (k : ℕ) → k < n → F.pre f.now k }
    ensures { AreOf F.Fn f.now n result }
{
    let mut made = Vec::new(alloc);
    for _ in 0..n {
        let before = next.fetch_add(1, Ordering::SeqCst) as usize;
        if before >= n {
            return Ok(made);
        }
        let k = from_the_ends(n, before);
        made.push((k, f(k)))?;
    }
    Ok(made)
}

/// Calls f(0) to f(n - 1), in at most so many threads, of which each takes the next number that none has taken, from both ends, and gives
/// the results in order. What takes long often stands at an end: of an implementation's places the last ones have the most in front of
/// them, and the first ones are invariants of its first loop. Where no thread can be made, this one makes the calls.
///
/// Only want of memory is an error.
pub fn map_indices<R: Threads + Sync, X: Send + Drop, F: Fn(usize) -> X + Sync>(
    rt: &R,
    alloc: Global,
    n: usize,
    threads: u32,
    f: &F,
) -> Result<Vec<X>, AllocError>
    requires { (k : ℕ) → k < n → F.pre f.now k }
    ensures len { IfOk result (λ v. vec_len v ≡ n) }
    ensures each { IfOk result (λ v. GivesEach F.Fn f.now n v.items) }
{
    let next = AtomicU64::new(0);
    let taken = &next;
    let parts = call_each(
        rt,
        alloc,
        n.min(threads as usize),
        &|_|
            requires { (k : ℕ) → k < n → F.pre f.now k }
            ensures { AreOf F.Fn f.entry.now n result }
        { by_turns(alloc, f, n, taken) },
    )?;
    gathered(alloc, f, n, parts)
}
