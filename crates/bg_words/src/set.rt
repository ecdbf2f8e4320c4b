//! A set of candidates as words of 64 bits.
use std::marker::Model;

/// A set of the candidates below `n`. A contract sees it as the list of `n` truth values, one for
/// each number.
#[derive(Drop)]
pub struct CandSet {
    pub(crate) words: Vec<u64>,
    pub(crate) n: u32,
}

impl Model for CandSet {
    ghost use Rattle.std.specs.Prelude.{◌≡◌, ◌<◌, ◌^◌, ℕ, Bool, List, true, length};
    ghost use Rattle.bg_words.specs.Sets.{tabulate, present, words_for};

    ghost Value = { List Bool };

    ghost view = { λ s. tabulate s.n (present s.words.items) };

    ghost invariant = { λ s. (s.n < 2 ^ 32) × (length s.words.items ≡ words_for s.n) × ((c : ℕ) → present s.words.items c ≡ true → c < s.n) };
}
