//! Fractions of whole numbers in 128 bits.
use bg_base::gcd;

/// A fraction in lowest terms. Its denominator is above 0, or it is 0 where a number left 128 bits: such a fraction is *lost*, and so
/// is what is made of it.
#[derive(Clone, Copy)]
pub struct Fraction {
    pub num: i128,
    pub den: i128,
}

const LOST: Fraction = Fraction { num: 0, den: 0 };

/// A whole number.
pub fn whole(n: i128) -> Fraction {
    Fraction { num: n, den: 1 }
}

/// Whether a number left 128 bits.
pub fn is_lost(f: Fraction) -> bool {
    f.den == 0
}

/// Whether it is a whole number.
pub fn is_whole(f: Fraction) -> bool {
    f.den == 1
}

/// The fraction of these two, where both are within 128 bits.
fn of(num: Option<i128>, den: Option<i128>) -> Fraction {
    match (num, den) {
        (Some(num), Some(den)) => Fraction { num, den },
        _ => LOST,
    }
}

/// The fraction of these two in lowest terms.
fn lowest(num: Option<i128>, den: Option<i128>) -> Fraction {
    let f = of(num, den);
    match i128::try_from(gcd(f.num.unsigned_abs(), f.den.unsigned_abs())) {
        Ok(g) => of(f.num.checked_div(g), f.den.checked_div(g)),
        Err(_) => LOST,
    }
}

/// The sum of two whole numbers, where they are there.
fn sum(a: Option<i128>, b: Option<i128>) -> Option<i128> {
    match (a, b) {
        (Some(a), Some(b)) => a.checked_add(b),
        _ => None,
    }
}

/// The sum.
pub fn plus(a: Fraction, b: Fraction) -> Fraction {
    if a.den == 1 && b.den == 1 {
        return of(a.num.checked_add(b.num), Some(1));
    }
    let num = sum(a.num.checked_mul(b.den), b.num.checked_mul(a.den));
    lowest(num, a.den.checked_mul(b.den))
}

/// The product. Mostly the first is 1 or -1.
pub fn times(a: Fraction, b: Fraction) -> Fraction {
    if a.den == 1 && a.num == 1 {
        return b;
    }
    if a.den == 1 && a.num == -1 {
        return negated(b);
    }
    let num = a.num.checked_mul(b.num);
    if a.den == 1 && b.den == 1 {
        return of(num, Some(1));
    }
    lowest(num, a.den.checked_mul(b.den))
}

/// The negation.
pub fn negated(f: Fraction) -> Fraction {
    of(f.num.checked_neg(), Some(f.den))
}

/// The difference.
pub fn minus(a: Fraction, b: Fraction) -> Fraction {
    plus(a, negated(b))
}

/// One by the fraction; that of 0 is lost.
pub fn inverse(f: Fraction) -> Fraction {
    if is_lost(f) {
        LOST
    } else if f.num < 0 {
        of(f.den.checked_neg(), f.num.checked_neg())
    } else {
        Fraction {
            num: f.den,
            den: f.num,
        }
    }
}

/// The greatest whole number that isn't above it; 0 where it is lost.
pub fn floor(f: Fraction) -> i128 {
    if f.den == 1 {
        f.num
    } else {
        f.num.checked_div_euclid(f.den).unwrap_or(0)
    }
}

/// The least whole number that isn't below it; 0 where it is lost.
pub fn ceiling(f: Fraction) -> i128 {
    let n = floor(f);
    if f.den > 1 { n.saturating_add(1) } else { n }
}

/// Whether it is below a whole number.
pub fn is_below(f: Fraction, k: i128) -> bool {
    floor(f) < k
}

/// Whether it is above a whole number.
pub fn is_above(f: Fraction, k: i128) -> bool {
    ceiling(f) > k
}
