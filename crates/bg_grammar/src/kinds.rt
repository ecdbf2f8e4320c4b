//! Tokens of one of several kinds.
ghost use Rattle.std.specs.Prelude.{◌≡◌, option_map, drop};
ghost use Rattle.bg_text.specs.Tokens.{view, views};
ghost use Rattle.bg_reader.specs.Reading.{peek};
ghost use Rattle.bg_grammar.specs.Sets.{is_in};
ghost use Rattle.bg_grammar.specs.Rules.{a_kind};

use bg_base::Pos;
use bg_reader::{first, is_kind};
use bg_text::{Kind, Token};

/// Whether the kind is one of these.
pub fn is_in(kinds: &[Kind], kind: Kind) -> bool
    ensures { result ≡ is_in kinds.now kind }
{
    for k in kinds {
        if is_kind(kind, *k) {
            return true;
        }
    }
    false
}

/// The position of the token at a place, if it is of one of these kinds, and the next place.
pub fn after_one_of<'a>(kinds: &[Kind], tokens: &[Token<'a>], at: usize) -> Option<(Pos, usize)>
    ensures { option_map (λ r. (r.0, views (drop r.1 tokens.now))) result ≡ peek (a_kind kinds.now) (views (drop at tokens.now)) }
{
    let (token, rest) = first(tokens, at)?;
    if is_in(kinds, token.kind) {
        Some((token.pos, rest))
    } else {
        None
    }
}
