//! The signs of expressions, and the tokens that are expressions.
ghost use Rattle.std.specs.Prelude.{◌≡◌, option_map, drop};
ghost use Rattle.bg_text.specs.Tokens.{views};
ghost use Rattle.bg_text.specs.Spelling.{grade, goes_on};
ghost use Rattle.bg_text.specs.Views.{ex_of};
ghost use Rattle.bg_reader.specs.Reading.{Gives, peek, one};
ghost use Rattle.bg_expr.specs.Exprs.{a_prefix, plain, first_sign, next_sign, infix_of};

use bg_base::Pos;
use bg_reader::{Refusal, first};
use bg_text::{InfixSign, Kind, PrefixSign, Token, TreeExpr, TreePrefix};

/// The prefix sign at a place, and the next place.
pub(crate) fn after_prefix<'a>(tokens: &[Token<'a>], at: usize) -> Option<(TreePrefix, usize)>
    ensures { option_map (λ r. (r.0, views (drop r.1 tokens.now))) result ≡ peek a_prefix (views (drop at tokens.now)) }
{
    let (token, rest) = first(tokens, at)?;
    match token.kind {
        Kind::Not => Some((
            TreePrefix {
                pos: token.pos,
                sign: PrefixSign::Not,
            },
            rest,
        )),
        Kind::Minus => Some((
            TreePrefix {
                pos: token.pos,
                sign: PrefixSign::Minus,
            },
            rest,
        )),
        _ => None,
    }
}

/// The sign between operands that the kind is.
pub(crate) fn infix_of(kind: Kind) -> Option<InfixSign>
    ensures { result ≡ infix_of kind }
{
    match kind {
        Kind::Iff => Some(InfixSign::Iff),
        Kind::Implies => Some(InfixSign::Implies),
        Kind::Explies => Some(InfixSign::Explies),
        Kind::And => Some(InfixSign::And),
        Kind::Or => Some(InfixSign::Or),
        Kind::Equal => Some(InfixSign::Equal),
        Kind::Unequal => Some(InfixSign::Unequal),
        Kind::Less => Some(InfixSign::Less),
        Kind::AtMost => Some(InfixSign::AtMost),
        Kind::Greater => Some(InfixSign::Greater),
        Kind::AtLeast => Some(InfixSign::AtLeast),
        Kind::Plus => Some(InfixSign::Plus),
        Kind::Minus => Some(InfixSign::Minus),
        Kind::Times => Some(InfixSign::Times),
        _ => None,
    }
}

/// How tightly a sign binds, from 0 on.
pub(crate) fn grade(sign: InfixSign) -> u32
    ensures { result ≡ grade sign }
{
    match sign {
        InfixSign::Iff => 0,
        InfixSign::Implies | InfixSign::Explies => 1,
        InfixSign::And | InfixSign::Or => 2,
        InfixSign::Equal
        | InfixSign::Unequal
        | InfixSign::Less
        | InfixSign::AtMost
        | InfixSign::Greater
        | InfixSign::AtLeast => 3,
        InfixSign::Plus | InfixSign::Minus => 4,
        InfixSign::Times => 5,
    }
}

/// Whether the second sign may stand in a chain that begins with the first.
pub(crate) fn goes_on(first: InfixSign, next: InfixSign) -> bool
    ensures { result ≡ goes_on first next }
{
    match (first, next) {
        (InfixSign::Iff, InfixSign::Iff) => true,
        (InfixSign::Implies, InfixSign::Implies) => true,
        (InfixSign::Explies, InfixSign::Explies) => true,
        (InfixSign::And, InfixSign::And) => true,
        (InfixSign::Or, InfixSign::Or) => true,
        (InfixSign::Plus | InfixSign::Minus, InfixSign::Plus | InfixSign::Minus) => true,
        (InfixSign::Times, InfixSign::Times) => true,
        _ => false,
    }
}

/// The sign that a chain of the level begins with, and the next place.
pub(crate) fn after_first_sign<'a>(
    level: u32,
    tokens: &[Token<'a>],
    at: usize,
) -> Option<((Pos, InfixSign), usize)>
    ensures { option_map (λ r. (r.0, views (drop r.1 tokens.now))) result ≡ peek (first_sign level) (views (drop at tokens.now)) }
{
    let (token, rest) = first(tokens, at)?;
    let sign = infix_of(token.kind)?;
    if grade(sign) == level {
        Some(((token.pos, sign), rest))
    } else {
        None
    }
}

/// The sign that goes on in a chain that begins with this one, and the next place.
pub(crate) fn after_next_sign<'a>(
    sign: InfixSign,
    tokens: &[Token<'a>],
    at: usize,
) -> Option<((Pos, InfixSign), usize)>
    ensures { option_map (λ r. (r.0, views (drop r.1 tokens.now))) result ≡ peek (next_sign sign) (views (drop at tokens.now)) }
{
    let (token, rest) = first(tokens, at)?;
    let next = infix_of(token.kind)?;
    if goes_on(sign, next) {
        Some(((token.pos, next), rest))
    } else {
        None
    }
}

/// A number or a truth value.
pub(crate) fn plain<'a>(tokens: &[Token<'a>], at: usize) -> Result<(TreeExpr, usize), Refusal>
    ensures { Gives ex_of (λ j. views (drop j tokens.now)) result (one plain (views (drop at tokens.now))) }
{
    let Some((token, rest)) = first(tokens, at) else {
        return Err(Refusal::Syntax(at));
    };
    match token.kind {
        Kind::Number(value) => Ok((TreeExpr::Number(token.pos, value), rest)),
        Kind::True => Ok((TreeExpr::Truth(token.pos, true), rest)),
        Kind::False => Ok((TreeExpr::Truth(token.pos, false), rest)),
        _ => Err(Refusal::Syntax(at)),
    }
}
