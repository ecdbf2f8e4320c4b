//! The next token.
ghost use Rattle.std.specs.Prelude.{◌≡◌, ◌∷◌, ◌≤◌, [], MatchOption, option_map, drop, length};
ghost use Rattle.bg_text.specs.Tokens.{view, views};
ghost use Rattle.bg_reader.specs.Reading.{peek, one, a_sign, a_text, Gives};

use crate::refusal::Refusal;
use crate::same::is_kind;
use bg_base::Pos;
use bg_text::{Kind, Token};

/// The token at a place, and the next place.
pub fn first<'a>(tokens: &[Token<'a>], at: usize) -> Option<(Token<'a>, usize)>
    ensures { MatchOption result (views (drop at tokens.now) ≡ []) (λ r. views (drop at tokens.now) ≡ view r.0 ∷ views (drop r.1 tokens.now)) }
{
    match tokens.get(at) {
        Some(token) => Some((*token, at + 1)),
        None => None,
    }
}

/// The place itself, or the end where it is beyond the end: the end has one number, that of all tokens.
pub fn within<'a>(tokens: &[Token<'a>], at: usize) -> usize
    ensures bound { result ≤ length tokens.now }
    ensures same { views (drop result tokens.now) ≡ views (drop at tokens.now) }
{
    if at < tokens.len() { at } else { tokens.len() }
}

/// The position of the token at a place, if it is of the kind, and the next place.
pub fn after_kind<'a>(kind: Kind, tokens: &[Token<'a>], at: usize) -> Option<(Pos, usize)>
    ensures { option_map (λ r. (r.0, views (drop r.1 tokens.now))) result ≡ peek (a_sign kind) (views (drop at tokens.now)) }
{
    let (token, rest) = first(tokens, at)?;
    if is_kind(kind, token.kind) {
        Some((token.pos, rest))
    } else {
        None
    }
}

/// The position and the text of the token at a place, if it is of the kind, and the next place.
pub fn after_text<'a>(
    kind: Kind,
    tokens: &[Token<'a>],
    at: usize,
) -> Option<((Pos, &'a [u8]), usize)>
    ensures { option_map (λ r. ((r.0.0, r.0.1.now), views (drop r.1 tokens.now))) result ≡ peek (a_text kind) (views (drop at tokens.now)) }
{
    let (token, rest) = first(tokens, at)?;
    if is_kind(kind, token.kind) {
        Some(((token.pos, token.text), rest))
    } else {
        None
    }
}

/// A token of the kind, which must stand.
pub fn expect_kind<'a>(kind: Kind, tokens: &[Token<'a>], at: usize) -> Result<(Pos, usize), Refusal>
    ensures { Gives (λ p. p) (λ j. views (drop j tokens.now)) result (one (a_sign kind) (views (drop at tokens.now))) }
{
    match after_kind(kind, tokens, at) {
        Some(found) => Ok(found),
        None => Err(Refusal::Syntax(at)),
    }
}

/// A token of the kind, which must stand, with its text.
pub fn expect_text<'a>(
    kind: Kind,
    tokens: &[Token<'a>],
    at: usize,
) -> Result<((Pos, &'a [u8]), usize), Refusal>
    ensures { Gives (λ r. (r.0, r.1.now)) (λ j. views (drop j tokens.now)) result (one (a_text kind) (views (drop at tokens.now))) }
{
    match after_text(kind, tokens, at) {
        Some(found) => Ok(found),
        None => Err(Refusal::Syntax(at)),
    }
}
