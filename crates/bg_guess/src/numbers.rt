//! Numbers of guesses, and lists of them. 2^32 of them count as want of memory.
ghost use Rattle.std.specs.Prelude.{◌≡◌, ◌≤◌, ◌+◌, ◌-◌, ◌^◌, ℕ, get_or, min, slice_set, IfOk, OnOk};
ghost use Rattle.bg_guess.specs.Guessed.{add_at};

use std::alloc::AllocError;

/// A number of 32 bits.
pub fn number(k: usize) -> Result<u32, AllocError>
    ensures { IfOk result (λ n. n ≡ k) }
{
    match u32::try_from(k) {
        Ok(n) => Ok(n),
        Err(_) => Err(AllocError),
    }
}

/// A sum of 32 bits.
pub fn sum(a: u32, b: u32) -> Result<u32, AllocError>
    ensures { IfOk result (λ n. n ≡ a + b) }
{
    match a.checked_add(b) {
        None => Err(AllocError),
        Some(n) => Ok(n),
    }
}

/// What was taken from 2^32 - 1, where something is left.
pub fn taken(left: u128) -> Result<u32, AllocError>
    requires { left ≤ 2 ^ 32 - 1 }
    ensures { IfOk result (λ n. (c : ℕ) → left ≡ 2 ^ 32 - 1 - c → n ≡ c) }
{
    if left == 0 {
        return Err(AllocError);
    }
    Ok(u32::MAX - left as u32)
}

/// What was taken from 2^128 - 1, as far as 64 bits tell it.
pub fn told(left: u128) -> usize
    ensures { result ≡ min (2 ^ 64 - 1) (2 ^ 128 - 1 - left) }
{
    let count = u128::MAX - left;
    if count < usize::MAX as u128 {
        count as usize
    } else {
        usize::MAX
    }
}

/// The number that 64 bits tell.
pub fn exact(told: usize) -> Result<usize, AllocError>
    ensures { IfOk result (λ n. (c : ℕ) → told ≡ min (2 ^ 64 - 1) c → n ≡ c) }
{
    if told == usize::MAX {
        return Err(AllocError);
    }
    Ok(told)
}

/// The number in this place, or 0.
pub fn number_at(ns: &[u32], k: usize) -> u32
    ensures { result ≡ get_or ns.now k 0 }
{
    match ns.get(k) {
        None => 0,
        Some(n) => *n,
    }
}

/// Puts a number into this place, where there is such a one.
pub fn set(ns: &mut [u32], k: usize, n: u32)
    ensures { ns.new ≡ slice_set ns.old k n }
{
    if k < ns.len() {
        ns[k] = n;
    }
}

/// So many more in this place.
pub fn add(ns: &mut [u32], k: usize, n: u32) -> Result<(), AllocError>
    ensures { OnOk result (ns.new ≡ add_at k n ns.old) }
{
    let more = sum(number_at(ns, k), n)?;
    set(ns, k, more);
    Ok(())
}
