//! Whole programs.
ghost use Rattle.std.specs.Prelude.{◌≡◌, ◌<◌, ◌≤◌, ◌-◌, ◌^◌, drop, length, IfOk};
ghost use Rattle.bg_text.specs.Declarations.{SpellsTree};
ghost use Rattle.bg_text.specs.Tokens.{views};
ghost use Rattle.bg_text.specs.Views.{decls_of};
ghost use Rattle.bg_reader.specs.Told.{IsTooDeep, IfRefused};
ghost use Rattle.bg_parse.specs.Programs.{IsProgram, IsStopped};

use crate::decls::decls;
use crate::tree::Tree;
use bg_reader::{Refusal, first, within};
use bg_text::Token;
use std::alloc::Global;

/// The program that all of the tokens spell, with their positions. At most 200 brackets may be open at a place.
/// `Syntax` names the first token with which no spelling of a program goes on, `TooDeep` the first bracket that is one
/// too many; the number of all tokens is that of the end. `Memory` is want of memory alone.
pub fn parse<'a>(alloc: Global, tokens: &[Token<'a>]) -> Result<Tree, Refusal>
    requires { length tokens.now < 2 ^ 32 - 1 }
    ensures read { IfOk result (λ tree. IsProgram 200 (views tokens.now) (decls_of tree.decls.items)) }
    ensures refused { IfRefused result (λ i. IsStopped 200 (views tokens.now) (views (drop i tokens.now))) (λ i. IsTooDeep SpellsTree 200 (views tokens.now) (views (drop i tokens.now))) }
    ensures place { IfRefused result (λ i. i ≤ length tokens.now) (λ i. i ≤ length tokens.now) }
{
    // no list has more parts than there are tokens, so that each loop sees the end of its list
    match decls(alloc, tokens.len() + 1, 200, tokens, 0) {
        Ok((decls, next)) => match first(tokens, next) {
            None => Ok(Tree { decls }),
            Some(_) => Err(Refusal::Syntax(within(tokens, next))),
        },
        Err(Refusal::Syntax(i)) => Err(Refusal::Syntax(within(tokens, i))),
        Err(Refusal::TooDeep(i)) => Err(Refusal::TooDeep(within(tokens, i))),
        Err(Refusal::Memory) => Err(Refusal::Memory),
    }
}
