//! Names.
ghost use Rattle.std.specs.Prelude.{◌≡◌, drop, IfOk, IfErr};
ghost use Rattle.bg_text.specs.Tokens.{view, views};
ghost use Rattle.bg_text.specs.Views.{id_of};
ghost use Rattle.bg_reader.specs.Reading.{Gives};
ghost use Rattle.bg_parts.specs.Types.{id_at};

use bg_base::Pos;
use bg_reader::{Refusal, expect_text};
use bg_text::{Kind, Name, Token};
use std::alloc::Global;

pub fn named(alloc: Global, pos: Pos, text: &[u8]) -> Result<Name, Refusal>
    ensures ok { IfOk result (λ made. (made.pos ≡ pos) × (made.text.items ≡ text.now)) }
    ensures err { IfErr result (λ x. x ≡ Refusal.Memory) }
{
    let text = text.to_vec(alloc)?;
    Ok(Name { pos, text })
}

/// A name.
#[tactic(auto, unfolding(crate::specs::Types::id_at))]
pub fn name<'a>(alloc: Global, tokens: &[Token<'a>], at: usize) -> Result<(Name, usize), Refusal>
    ensures { Gives id_of (λ j. views (drop j tokens.now)) result (id_at (views (drop at tokens.now))) }
{
    let ((pos, text), after) = expect_text(Kind::Name, tokens, at)?;
    Ok((named(alloc, pos, text)?, after))
}
