//! The value of a number.
ghost use Rattle.std.specs.Prelude.{◌≡◌, MatchOption, pos};
ghost use Rattle.bg_text.specs.Pieces.{number_of, value_from, TooBig, Token};

use bg_text::Kind;

const LARGEST: u128 = 170141183460469231731687303715884105727;

#[tactic(auto, using(crate::proofs::Numbers::too_big, crate::proofs::Numbers::too_big_soon))]
/// The number that decimal digits are, where it is at most 2^127 - 1.
pub(crate) fn number_of(digits: &[u8]) -> Option<Kind>
    ensures { MatchOption result (number_of (value_from 0 digits.now) ≡ TooBig) (λ k. number_of (value_from 0 digits.now) ≡ Token k) }
{
    let mut value: u128 = 0;
    for digit in digits {
        if value > LARGEST / 10 {
            return None;
        }
        value = value * 10 + u128::from(digit.saturating_sub(b'0'));
    }
    if value > LARGEST {
        None
    } else {
        Some(Kind::Number(value as i128))
    }
}
