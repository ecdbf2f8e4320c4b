//! The calls of a set. None but `new` takes memory.
ghost use Rattle.std.specs.Prelude.{◌≡◌, ℕ, ◌+◌, ◌*◌, ◌<◌, ◌&&◌, ◌↔◌, not, nat_eq, nat_lt, false, length, slice_set, IfOk, IsTrue};
ghost use Rattle.bg_words.specs.Sets.{has, bit, tabulate, words_for, size, with_word, IsSubset};

use crate::set::CandSet;
use bg_base::CandId;
use std::alloc::{AllocError, Global};

/// Word `i` of the set of all candidates below `n`.
pub fn full_word(n: u32, i: u32) -> u64
    requires { i < words_for n }
    ensures { (k : ℕ) → k < 64 → bit result k ≡ nat_lt (i * 64 + k) n }
{
    let left = n - i * 64;
    if left >= 64 {
        u64::MAX
    } else {
        (1 << left) - 1
    }
}

impl CandSet {
    /// All candidates below `n`, or none of them. Fails for want of memory alone.
    pub fn new(alloc: Global, n: u32, full: bool) -> Result<CandSet, AllocError>
        ensures count { IfOk result (λ s. length s ≡ n) }
        ensures members { IfOk result (λ s. s ≡ tabulate n (λ _. full)) }
    {
        let count = n.div_ceil(64);
        let mut words = Vec::with_capacity(alloc, count as usize)?;
        for i in 0..count {
            words.push_reserved(if full { full_word(n, i) } else { 0 });
        }
        Ok(CandSet { words, n })
    }

    /// How many candidates were declared, in the set or not.
    pub fn declared(&self) -> u32
        ensures { result ≡ length self.now }
    {
        self.n
    }

    /// How many words of 64 candidates the set takes.
    pub fn word_count(&self) -> u32
        ensures { result ≡ words_for (length self.now) }
    {
        self.n.div_ceil(64)
    }

    pub fn has(&self, c: CandId) -> bool
        requires { c.0 < length self.now }
        ensures { result ≡ has self.now c.0 }
    {
        (self.words[(c.0 / 64) as usize] >> (c.0 % 64)) & 1 == 1
    }

    pub fn remove(&mut self, c: CandId)
        requires { c.0 < length self.old }
        ensures count { length self.new ≡ length self.old }
        ensures members { self.new ≡ slice_set self.old c.0 false }
    {
        let i = (c.0 / 64) as usize;
        self.words[i] &= !(1 << (c.0 % 64));
    }

    /// Whether all of this set is in the other.
    pub fn is_subset(&self, other: &CandSet) -> bool
        requires { length self.now ≡ length other.now }
        ensures { IsTrue result ↔ IsSubset self.now other.now }
    {
        for i in 0..self.words.len() {
            if self.words[i] & !other.words[i] != 0 {
                return false;
            }
        }
        true
    }

    /// How many candidates are in the set.
    pub fn count(&self) -> u32
        ensures { result ≡ size self.now }
    {
        let mut count: u32 = 0;
        for i in 0..self.words.len() {
            count += self.words[i].count_ones();
        }
        count
    }

    pub fn copy_from(&mut self, other: &CandSet)
        requires { length self.old ≡ length other.now }
        ensures { self.new ≡ other.now }
    {
        for i in 0..self.words.len() {
            self.words[i] = other.words[i];
        }
    }

    /// The candidates of word `i` are from now on those that the word tells, of the declared ones.
    pub fn set_word(&mut self, i: u32, word: u64)
        requires { i < words_for (length self.old) }
        ensures count { length self.new ≡ length self.old }
        ensures members { self.new ≡ with_word self.old i word }
    {
        self.words[i as usize] = word & full_word(self.n, i);
    }
}
