//! What the words of a line say.
ghost use Rattle.std.specs.Prelude.{◌≡◌, ◌<◌, ◌^◌, ◌∷◌, [], ◌&&◌, nat_lt, int_le, pos, map, IfOk, IfSome, option_map};
ghost use Rattle.bg_certtext.specs.Spellable.{is_factor};
ghost use Rattle.bg_certtext.specs.Machine.{one, two, with_sign, name_in, literal_in, signed_in, literals_in, term_in, terms_in, row_in, sum_in, step_in, count_in};
ghost use Rattle.bg_certtext.specs.Views.{row_of};

use crate::numeral::{integer, natural};
use crate::text::{Term, TextRow};
use crate::words::{is_name, is_word};
use bg_cert::Named;
use bg_rows::Step;
use std::alloc::{AllocError, Global};

/// One number.
pub(crate) fn one(words: &[&[u8]]) -> Option<u128>
    ensures { result ≡ one (map (λ w. w.now) words.now) }
{
    match words {
        [a] => natural(a),
        _ => None,
    }
}

/// A number of lines, at least 1, behind this first word.
pub(crate) fn count_in(words: &[&[u8]], key: &[u8]) -> Option<u128>
    ensures { result ≡ count_in key.now (map (λ w. w.now) words.now) }
{
    let [first, rest @ ..] = words else {
        return None;
    };
    if !is_word(first, key) {
        return None;
    }
    match one(rest) {
        Some(0) => None,
        other => other,
    }
}

/// Two numbers.
pub(crate) fn two(words: &[&[u8]]) -> Option<(u128, u128)>
    ensures { result ≡ two (map (λ w. w.now) words.now) }
{
    match words {
        [a, b] => Some((natural(a)?, natural(b)?)),
        _ => None,
    }
}

/// A number, and a whole number.
pub(crate) fn with_sign(words: &[&[u8]]) -> Option<(u128, i128)>
    ensures { result ≡ with_sign (map (λ w. w.now) words.now) }
{
    match words {
        [a, b] => Some((natural(a)?, integer(b)?)),
        _ => None,
    }
}

/// One name.
pub(crate) fn name_in<'a>(words: &[&'a [u8]]) -> Option<&'a [u8]>
    ensures { option_map (λ name. name.now) result ≡ name_in (map (λ w. w.now) words.entry.now) }
{
    match words {
        [name] => { if is_name(name) { Some(name) } else { None } }
        _ => None,
    }
}

/// What stands behind a literal's sign.
fn signed_in(sign: bool, word: &[u8]) -> Option<Named>
    ensures { result ≡ signed_in sign word.now }
{
    match word {
        [] => None,
        [b'#', rest @ ..] => Some(Named::OfRow(natural(rest)?, sign)),
        _ => Some(Named::OfAtom(natural(word)?, sign)),
    }
}

fn literal_in(word: &[u8]) -> Option<Named>
    ensures { result ≡ literal_in word.now }
{
    match word {
        [b'+', rest @ ..] => signed_in(true, rest),
        [b'-', rest @ ..] => signed_in(false, rest),
        _ => None,
    }
}

/// The literals of a lemma.
pub(crate) fn literals_in(alloc: Global, words: &[&[u8]]) -> Result<Option<Vec<Named>>, AllocError>
    ensures { IfOk result (λ o. option_map (λ v. v.items) o ≡ literals_in (map (λ w. w.now) words.now)) }
{
    let mut made = Vec::with_capacity(alloc, words.len())?;
    for word in words {
        let Some(literal) = literal_in(word) else {
            return Ok(None);
        };
        made.push(literal)?;
    }
    Ok(Some(made))
}

/// Whether a factor isn't 0 and its negation is within 128 bits.
pub(crate) fn is_factor(k: i128) -> bool
    ensures { result ≡ is_factor k }
{
    k != 0 && k != i128::MIN
}

/// A term that isn't below a number.
fn term_in(low: u128, a: &[u8], b: &[u8]) -> Option<Term>
    ensures term { result ≡ term_in low a.now b.now }
    ensures small { IfSome result (λ t. t.term < 2 ^ 127) }
{
    let term = natural(a)?;
    let by = integer(b)?;
    if low <= term && is_factor(by) {
        Some(Term { term, by })
    } else {
        None
    }
}

/// The terms of a row.
fn terms_in(alloc: Global, words: &[&[u8]]) -> Result<Option<Vec<Term>>, AllocError>
    ensures { IfOk result (λ o. option_map (λ v. v.items) o ≡ terms_in 0 (map (λ w. w.now) words.now)) }
{
    let mut made = Vec::with_capacity(alloc, words.len() / 2)?;
    let mut low = 0;
    let mut rest = words;
    while let [a, b, behind @ ..] = rest {
        let Some(t) = term_in(low, a, b) else {
            return Ok(None);
        };
        made.push(t)?;
        low = t.term + 1;
        rest = behind;
    }
    if rest.is_empty() {
        Ok(Some(made))
    } else {
        Ok(None)
    }
}

/// A row, with its first word.
pub(crate) fn row_in(alloc: Global, words: &[&[u8]]) -> Result<Option<TextRow>, AllocError>
    ensures { IfOk result (λ o. option_map row_of o ≡ row_in (map (λ w. w.now) words.now)) }
{
    let [key, bound, rest @ ..] = words else {
        return Ok(None);
    };
    if !is_word(key, b"row") {
        return Ok(None);
    }
    let Some(bound) = integer(bound) else {
        return Ok(None);
    };
    match terms_in(alloc, rest)? {
        Some(terms) => Ok(Some(TextRow { bound, terms })),
        None => Ok(None),
    }
}

/// Whether a sum is one of multiples of rows below n.
fn is_sum(n: u128, r: u128, p: i128, s: u128, q: i128) -> bool
    ensures { result ≡ (nat_lt r n && (int_le (pos 0) p && (nat_lt s n && int_le (pos 0) q))) }
{
    r < n && (0 <= p && (s < n && 0 <= q))
}

/// A sum of multiples of rows below n, of these words.
fn sum_of(n: u128, r: &[u8], p: &[u8], s: &[u8], q: &[u8]) -> Option<Step>
    ensures { result ≡ sum_in n (r.now ∷ p.now ∷ s.now ∷ q.now ∷ []) }
{
    let r = natural(r)?;
    let p = integer(p)?;
    let s = natural(s)?;
    let q = integer(q)?;
    if is_sum(n, r, p, s, q) {
        Some(Step::Sum(r, p, s, q))
    } else {
        None
    }
}

/// A sum of multiples of rows below n.
fn sum_in(n: u128, words: &[&[u8]]) -> Option<Step>
    ensures { result ≡ sum_in n (map (λ w. w.now) words.now) }
{
    match words {
        [r, p, s, q] => sum_of(n, r, p, s, q),
        _ => None,
    }
}

/// The step of row n.
pub(crate) fn step_in(n: u128, words: &[&[u8]]) -> Option<Step>
    ensures { result ≡ step_in n (map (λ w. w.now) words.now) }
{
    let [key, rest @ ..] = words else {
        return None;
    };
    if is_word(key, b"path") {
        Some(Step::Path(one(rest)?))
    } else if is_word(key, b"sum") {
        sum_in(n, rest)
    } else if is_word(key, b"tight") {
        let r = one(rest)?;
        if r < n { Some(Step::Tight(r)) } else { None }
    } else {
        None
    }
}
