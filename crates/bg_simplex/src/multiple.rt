//! Multiples of literals' rows.
use crate::bound::Lit;
use crate::fraction::Fraction;
use crate::line::Part;
use bg_base::gcd;
use std::alloc::AllocError;

/// A literal, and how many times its bound's row counts: a whole number above 0. A list of them stands for the sum, as in the lemma of
/// Farkas.
#[derive(Clone, Copy)]
pub struct Multiple {
    pub lit: Lit,
    pub times: i128,
}

/// The least common multiple of two numbers above 0; 0 where it is past 128 bits, or where one is 0.
pub fn common_multiple(a: i128, b: i128) -> i128 {
    let g = i128::try_from(gcd(a.unsigned_abs(), b.unsigned_abs())).unwrap_or(0);
    match b.checked_div(g) {
        Some(more) => a.checked_mul(more).unwrap_or(0),
        None => 0,
    }
}

/// The least common denominator of the parts; 0 where it is past 128 bits.
pub fn common_denominator(parts: &[Part]) -> i128 {
    let mut all = 1;
    for part in parts {
        if part.by.den != 1 {
            all = common_multiple(all, part.by.den);
        }
    }
    all
}

/// So many times a fraction without its sign, where that is a whole number. Mostly the fraction is one, and counts once.
fn scaled(f: Fraction, by: i128) -> Option<i128> {
    let num = f.num.checked_abs()?;
    if f.den == 1 && by == 1 {
        return Some(num);
    }
    num.checked_mul(by.checked_div(f.den)?)
}

/// Puts so many times a literal's row behind the others. False where the number leaves 128 bits.
pub fn push_multiple(
    all: &mut Vec<Multiple>,
    lit: Lit,
    f: Fraction,
    by: i128,
) -> Result<bool, AllocError> {
    match scaled(f, by) {
        Some(times) => {
            all.push(Multiple { lit, times })?;
            Ok(true)
        }
        None => Ok(false),
    }
}
