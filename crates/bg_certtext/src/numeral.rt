//! Numbers that words are.
ghost use Rattle.std.specs.Prelude.{◌≡◌, ◌-◌, ◌<◌, ◌≤◌, ◌^◌, IfSome, negsuc};
ghost use Rattle.bg_text.specs.Pieces.{is_digit};
ghost use Rattle.bg_certtext.specs.Words.{digits_on, natural_within, natural, integer};

const LARGEST: u128 = 170141183460469231731687303715884105727;

/// 2^124: ten times as much is above the largest, and a digit more than ten times less still fits.
const WIDE: u128 = 21267647932558653966460912964485513216;

#[tactic(auto, unfolding(bg_text::specs::Pieces::is_digit))]
fn is_digit(b: u8) -> bool
    ensures { result ≡ is_digit b }
{
    b >= b'0' && b <= b'9'
}

/// The number of digits behind one that is not 0.
#[tactic(auto, using(crate::proofs::Numerals::ends_there, crate::proofs::Numerals::too_big_there, crate::proofs::Numerals::goes_on))]
fn digits_on(first: u128, digits: &[u8], largest: u128) -> Option<u128>
    requires small { first ≤ largest }
    requires fits { largest ≤ 2 ^ 127 }
    ensures value { result ≡ digits_on largest first digits.now }
    ensures small { IfSome result (λ n. n ≤ largest) }
{
    let mut value = first;
    for b in digits {
        if !is_digit(*b) || value >= WIDE {
            return None;
        }
        value = value * 10 + u128::from(b.saturating_sub(b'0'));
        if value > largest {
            return None;
        }
    }
    Some(value)
}

/// The number that a word is, where it is not above the largest.
fn natural_within(word: &[u8], largest: u128) -> Option<u128>
    requires large { 1000 ≤ largest }
    requires fits { largest ≤ 2 ^ 127 }
    ensures value { result ≡ natural_within largest word.now }
    ensures small { IfSome result (λ n. n ≤ largest) }
{
    match word {
        [] => None,
        [b'0'] => Some(0),
        [b'0', ..] => None,
        [first, rest @ ..] => {
            if is_digit(*first) {
                digits_on(u128::from(first.saturating_sub(b'0')), rest, largest)
            } else {
                None
            }
        }
    }
}

/// The number that a word is.
pub(crate) fn natural(word: &[u8]) -> Option<u128>
    ensures value { result ≡ natural word.now }
    ensures small { IfSome result (λ n. n < 2 ^ 127) }
{
    natural_within(word, LARGEST)
}

/// A number's negation, where the number isn't 0.
fn negated(n: u128) -> i128
    requires some { 0 < n }
    requires fits { n ≤ 2 ^ 127 }
    ensures { result ≡ negsuc (n - 1) }
{
    -((n - 1) as i128) - 1
}

/// The whole number that a word is.
pub(crate) fn integer(word: &[u8]) -> Option<i128>
    ensures { result ≡ integer word.now }
{
    match word {
        [] => None,
        [b'-', rest @ ..] => match natural_within(rest, LARGEST + 1) {
            None => None,
            Some(0) => None,
            Some(n) => Some(negated(n)),
        },
        _ => match natural(word) {
            None => None,
            Some(n) => Some(n as i128),
        },
    }
}
