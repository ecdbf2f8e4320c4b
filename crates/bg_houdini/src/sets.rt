//! Sets of candidates as lists of truth values, and back.
ghost use Rattle.std.specs.Prelude.{◌≡◌, ◌<◌, ◌+◌, ◌*◌, ℕ, min, false, if◌then◌else◌, length, slice_set, IfOk, IsTrue};
ghost use Rattle.bg_words.specs.Sets.{has, words_for};
ghost use Rattle.bg_houdini.specs.Begun.{IsBegun};

use bg_base::CandId;
use bg_words::CandSet;
use std::alloc::{AllocError, Global};

/// A truth value for each candidate: whether it is in the set.
pub fn truths_of(alloc: Global, set: &CandSet) -> Result<Vec<bool>, AllocError>
    ensures { IfOk result (λ made. made.items ≡ set.now) }
{
    let mut made = Vec::with_capacity(alloc, set.declared() as usize)?;
    for c in 0..set.declared() {
        made.push_reserved(set.has(CandId(c)));
    }
    Ok(made)
}

/// The candidate stays where it is to be kept.
fn keep_where(set: &mut CandSet, c: CandId, keep: bool)
    requires { c.0 < length set.old }
    ensures { set.new ≡ (if keep then set.old else slice_set set.old c.0 false) }
{
    if !keep {
        set.remove(c);
    }
}

/// Whether none of these truth values is true.
fn none_of(truths: &[bool]) -> bool
    ensures { IsTrue result → (c : ℕ) → c < length truths.now → has truths.now c ≡ false }
{
    for t in truths {
        if *t {
            return false;
        }
    }
    true
}

/// The candidates of word `i` of a set are from now on as the truth values say; so far they are all there, and so are those behind them.
/// Most sets have few candidates, and a word that has none is put as a whole.
fn keep_word(set: &mut CandSet, truths: &[bool], i: u32)
    requires long { length truths.now ≡ length set.old }
    requires inside { i < words_for (length set.old) }
    requires begun { IsBegun (length set.old) (i * 64) truths.now set.old }
    ensures { IsBegun (length set.old) (min (i * 64 + 64) (length set.old)) truths.now set.new }
{
    let from = i as usize * 64;
    let to = (set.declared() as usize).min(from + 64);
    if none_of(&truths[from..to]) {
        set.set_word(i, 0);
        return;
    }
    for c in from..to {
        keep_where(set, CandId(c as u32), truths[c]);
    }
}

/// The set of the candidates whose truth value is true.
pub fn set_of(alloc: Global, truths: &[bool], candidates: u32) -> Result<CandSet, AllocError>
    requires { length truths.now ≡ candidates }
    ensures { IfOk result (λ made. made ≡ truths.now) }
{
    let mut made = CandSet::new(alloc, candidates, true)?;
    for i in 0..made.word_count() {
        keep_word(&mut made, truths, i);
    }
    Ok(made)
}
