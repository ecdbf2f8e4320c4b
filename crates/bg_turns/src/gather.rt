//! What calls gave, each put at its number.
ghost use Rattle.std.specs.Prelude.{◌≡◌, ℕ, ◌<◌, All, replicate, length, IfOk, IfSome, None};
ghost use Rattle.std.specs.Fn.{FnReturns};
ghost use Rattle.bg_turns.specs.Turns.{IsOf, Fits, AreOf, Gives};

use std::alloc::{AllocError, Global};

/// Room for so many results.
fn empty<X: Drop>(alloc: Global, n: usize) -> Result<Vec<Option<X>>, AllocError>
    ensures { IfOk result (λ slots. slots.items ≡ replicate n None) }
{
    let mut slots = Vec::with_capacity(alloc, n)?;
    for _ in 0..n {
        slots.push(None)?;
    }
    Ok(slots)
}

/// Puts what a call of `f` gave at its number.
fn put<X: Drop, F: Fn(usize) -> X>(_f: &F, slots: &mut Vec<Option<X>>, k: usize, x: X)
    requires made { IsOf F.Fn _f.now (length slots.old.items) (k, x) }
    requires slots { Fits F.Fn _f.now slots.old.items }
    ensures long { length slots.new.items ≡ length slots.old.items }
    ensures slots { Fits F.Fn _f.now slots.new.items }
{
    slots[k] = Some(x);
}

/// Puts what calls of `f` gave at its numbers.
fn put_all<X: Drop, F: Fn(usize) -> X>(f: &F, slots: &mut Vec<Option<X>>, made: Vec<(usize, X)>)
    requires made { All (IsOf F.Fn f.now (length slots.old.items)) made.items }
    requires slots { Fits F.Fn f.now slots.old.items }
    ensures long { length slots.new.items ≡ length slots.old.items }
    ensures slots { Fits F.Fn f.now slots.new.items }
{
    for (k, x) in made {
        put(f, slots, k, x);
    }
}

/// What calls of `f` gave in parts, at its numbers.
fn placed<X: Drop, F: Fn(usize) -> X>(
    alloc: Global,
    f: &F,
    n: usize,
    parts: Vec<Result<Vec<(usize, X)>, AllocError>>,
) -> Result<Vec<Option<X>>, AllocError>
    requires parts { All (AreOf F.Fn f.now n) parts.items }
    ensures long { IfOk result (λ slots. length slots.items ≡ n) }
    ensures slots { IfOk result (λ slots. Fits F.Fn f.now slots.items) }
{
    let mut slots = empty(alloc, n)?;
    for part in parts {
        put_all(f, &mut slots, part?);
    }
    Ok(slots)
}

/// What is in the slot of this number, or what a call with the number gives.
fn taken<X: Drop, F: Fn(usize) -> X>(f: &F, k: usize, slot: Option<X>) -> X
    requires accepts { F.pre f.now k }
    requires slot { IfSome slot (FnReturns F.Fn f.now (k, tt)) }
    ensures { FnReturns F.Fn f.now (k, tt) result }
{
    match slot {
        Some(x) => x,
        None => f(k),
    }
}

/// What is in the slots, and where one is empty, what a call with its number gives.
fn filled<X: Drop, F: Fn(usize) -> X>(
    alloc: Global,
    f: &F,
    slots: Vec<Option<X>>,
) -> Result<Vec<X>, AllocError>
    requires accepts { (k : ℕ) → k < length slots.items → F.pre f.now k }
    requires slots { Fits F.Fn f.now slots.items }
    ensures { IfOk result (λ made. Gives F.Fn f.now (length slots.items) made.items) }
{
    let mut made = Vec::with_capacity(alloc, slots.len())?;
    for slot in slots {
        let x = taken(f, made.len(), slot);
        made.push(x)?;
    }
    Ok(made)
}

/// What calls of `f` gave in parts, in the order of the numbers; a call with a number of which no part has a result is made now.
pub fn gathered<X: Drop, F: Fn(usize) -> X>(
    alloc: Global,
    f: &F,
    n: usize,
    parts: Vec<Result<Vec<(usize, X)>, AllocError>>,
) -> Result<Vec<X>, AllocError>
    requires accepts { (k : ℕ) → k < n → F.pre f.now k }
    requires parts { All (AreOf F.Fn f.now n) parts.items }
    ensures { IfOk result (λ made. Gives F.Fn f.now n made.items) }
{
    let slots = placed(alloc, f, n, parts)?;
    filled(alloc, f, slots)
}
