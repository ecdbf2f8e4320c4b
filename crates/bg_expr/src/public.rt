//! The expression at a place.
ghost use Rattle.std.specs.Prelude.{◌≡◌, ◌≤◌, ◌-◌, IfOk, drop, length};
ghost use Rattle.bg_text.specs.Tokens.{views};
ghost use Rattle.bg_text.specs.Spelling.{Spells};
ghost use Rattle.bg_text.specs.Views.{ex_of};
ghost use Rattle.bg_reader.specs.Reading.{Gives};
ghost use Rattle.bg_reader.specs.Told.{IsRead, IsRefused, IsTooDeep, IfRefused, Names};
ghost use Rattle.bg_expr.specs.Exprs.{expr_at};
ghost use Rattle.bg_expr.specs.Nodes.{ex_nodes};
ghost use Rattle.bg_expr.specs.Places.{HasPlaces};

use crate::parse::ladder;
use bg_reader::{Refusal, within};
use bg_text::{Token, TreeExpr};
use std::alloc::Global;

/// The expression at a place, where so many brackets may still be opened, and the next place. Each list and each chain
/// has at most `limit` parts behind its first, more being a want of memory.
pub fn read_expr<'a>(
    alloc: Global,
    limit: usize,
    depth: u32,
    tokens: &[Token<'a>],
    at: usize,
) -> Result<(TreeExpr, usize), Refusal>
    ensures { Gives ex_of (λ j. views (drop j tokens.now)) result (expr_at limit depth (views (drop at tokens.now))) }
{
    ladder(alloc, limit, depth, 6, tokens, at)
}

/// The longest expression that stands from a place on, where so many of 200 brackets are open, and the next place.
/// `Syntax` names the first token with which no spelling of an expression goes on, `TooDeep` the first bracket that is
/// one too many; the number of all tokens is that of the end.
pub fn expr<'a>(
    alloc: Global,
    tokens: &[Token<'a>],
    from: usize,
    depth: u32,
) -> Result<(TreeExpr, usize), Refusal>
    requires open { depth ≤ 200 }
    requires start { from ≤ length tokens.now }
    ensures read { IfOk result (λ r. IsRead (Spells 0) (200 - depth) (views (drop from tokens.now)) (ex_of r.0) (views (drop r.1 tokens.now))) }
    ensures positions { IfOk result (λ r. HasPlaces (views (drop from tokens.now)) (ex_of r.0) (views (drop r.1 tokens.now))) }
    ensures refused { IfRefused result (λ i. IsRefused (Spells 0) (200 - depth) (views (drop from tokens.now)) (views (drop i tokens.now))) (λ i. IsTooDeep (Spells 0) (200 - depth) (views (drop from tokens.now)) (views (drop i tokens.now))) }
    ensures size { IfOk result (λ r. ex_nodes (ex_of r.0) ≤ r.1 - from) }
    ensures place { Names result (λ i. (from ≤ i) × (i ≤ length tokens.now)) }
{
    match read_expr(alloc, tokens.len(), 200 - depth, tokens, from) {
        Ok((e, next)) => Ok((e, within(tokens, next))),
        Err(Refusal::Syntax(i)) => Err(Refusal::Syntax(within(tokens, i))),
        Err(Refusal::TooDeep(i)) => Err(Refusal::TooDeep(within(tokens, i))),
        Err(Refusal::Memory) => Err(Refusal::Memory),
    }
}
