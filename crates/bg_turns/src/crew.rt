//! Threads that the calling one makes, all of them.
ghost use Rattle.std.specs.Prelude.{◌≡◌, ℕ, ◌+◌, ◌<◌, length, IfOk};
ghost use denote.Param.Send.{IsSync, IsSend};
ghost use Rattle.std.specs.Fn.{FnReturns};
ghost use Rattle.std.specs.Fork.{AcceptsAt, AcceptsEach, ChangesEach};
ghost use Rattle.bg_turns.specs.Turns.{Gives, Leaves, LeavesOne};

use std::alloc::{AllocError, Global};
use std::thread::{Threads, join, join_mut};

/// What calls of `f` with the numbers below `n`, of which there is one at most, give.
fn at_most_one<X: Drop, F: Fn(usize) -> X>(
    alloc: Global,
    n: usize,
    f: &F,
) -> Result<Vec<X>, AllocError>
    requires few { n < 2 }
    requires accepts { (k : ℕ) → k < n → F.pre f.now k }
    ensures { IfOk result (λ made. Gives F.Fn f.now n made.items) }
{
    let mut made = Vec::new(alloc);
    if n == 1 {
        made.push(f(0))?;
    }
    Ok(made)
}

/// Calls f(0) to f(n - 1), each in a thread of its own where one can be made, and gives the results in order. The calling thread makes
/// each of the others, and calls f(0) itself: a system that puts a new thread beside its maker, on one processor, as Linux does for a
/// while where the maker is new too, then has no maker that is new.
///
/// Only want of memory is an error.
#[cycle(calls)]
pub(crate) fn call_each<R: Threads + Sync, X: Send + Drop, F: Fn(usize) -> X + Sync>(
    rt: &R,
    alloc: Global,
    n: usize,
    f: &F,
) -> Result<Vec<X>, AllocError>
    requires { (k : ℕ) → k < n → F.pre f.now k }
    ensures { IfOk result (λ made. Gives F.Fn f.now n made.items) }
{
    if n < 2 {
        return at_most_one(alloc, n, f);
    }
    let last = n - 1;
    let theirs = move || -> X
        requires { IsSync F.row × IsSend X.row × F.pre f.now last }
        ensures { FnReturns F.Fn f.entry.now (last, tt) result }
    { f(last) };
    let ours = move || -> Result<Vec<X>, AllocError>
        requires { IsSync R.row × IsSync F.row × IsSend X.row × ((k : ℕ) → k < last → F.pre f.now k) }
        ensures { IfOk result (λ made. Gives F.Fn f.entry.now last made.items) }
    { call_each(rt, alloc, last, f) };
    let (one, rest) = join(rt, theirs, ours);
    let mut made = rest?;
    made.push(one)?;
    Ok(made)
}

/// Calls f(i, &mut s[i]).
fn at_one<T, F: Fn(usize, &mut T)>(f: &F, i: usize, it: &mut T)
    requires { AcceptsAt F.Fn f.now i it.old }
    ensures { LeavesOne F.Fn f.now i it.old it.new }
{
    f(i, it);
}

/// Calls f at each place of a slice that isn't empty, as `for_each_mut` does.
#[cycle(each)]
fn leave_each<R: Threads + Sync, T: Send, F: Fn(usize, &mut T) + Sync>(rt: &R, f: &F, s: &mut [T])
    requires some { 0 < length s.old }
    requires accepts { AcceptsEach F.Fn f.now s.old }
    ensures { Leaves F.Fn f.now s.old s.new }
{
    let last = s.len() - 1;
    let (rest, end) = s.split_at_mut(last);
    if last == 0 {
        at_one(f, last, &mut end[0]);
        return;
    }
    both(rt, f, rest, last, &mut end[0]);
}

/// Calls f at the places of `rest`, and in another thread at the place behind them.
#[cycle(each)]
fn both<R: Threads + Sync, T: Send, F: Fn(usize, &mut T) + Sync>(
    rt: &R,
    f: &F,
    rest: &mut [T],
    last: usize,
    one: &mut T,
)
    requires some { 0 < length rest.old }
    requires rest { AcceptsEach F.Fn f.now rest.old }
    requires one { AcceptsAt F.Fn f.now last one.old }
    ensures rest { Leaves F.Fn f.now rest.old rest.new }
    ensures one { LeavesOne F.Fn f.now last one.old one.new }
{
    let mut theirs = ||
        requires { IsSync F.row × IsSend T.row × AcceptsAt F.Fn f.now last one.now }
        ensures { LeavesOne F.Fn f.entry.now last one.entry.now one.exit.now }
    { at_one(f, last, one) };
    let mut ours = ||
        requires { IsSync R.row × IsSync F.row × IsSend T.row × (0 < length rest.now) × AcceptsEach F.Fn f.now rest.now }
        ensures { Leaves F.Fn f.entry.now rest.entry.now rest.exit.now }
    { leave_each(rt, f, rest) };
    join_mut(rt, &mut theirs, &mut ours);
}

/// Calls f(i, &mut s[i]) at each place, each in a thread of its own where one can be made. The calling thread makes each of the others,
/// and is the one at the first place.
pub fn for_each_mut<R: Threads + Sync, T: Send, F: Fn(usize, &mut T) + Sync>(
    rt: &R,
    f: &F,
    s: &mut [T],
)
    requires { AcceptsEach F.Fn f.now s.old }
    ensures { ChangesEach F.Fn f.now s.old s.new }
{
    if s.is_empty() {
        return;
    }
    leave_each(rt, f, s);
}
