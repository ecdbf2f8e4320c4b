//! The tree of a text.
ghost use Rattle.std.specs.Prelude.{◌≡◌, ◌≤◌, ◌<◌, ◌-◌, ◌^◌, length, drop, IfOk, IfErr};
ghost use Rattle.bg_text.specs.Text.{Text};
ghost use Rattle.bg_text.specs.Tokens.{views};
ghost use Rattle.bg_text.specs.Views.{decls_of};
ghost use Rattle.bg_text.specs.Declarations.{SpellsTree};
ghost use Rattle.bg_reader.specs.Told.{IsTooDeep};
ghost use Rattle.bg_parse.specs.Programs.{IsProgram, IsStopped};
ghost use Rattle.bg_front.specs.Trees.{IsTreeOf, position_of, end_of, IsNoTree};

use crate::refusal::{ReadError, Refusal};
use bg_base::Pos;
use bg_lex::{LexError, Tokens, lex};
use bg_parse::{Tree, parse};
use bg_reader::{Refusal as Stop, first};
use bg_text::Token;
use std::alloc::Global;

/// A text's tokens, and its declarations as they are written.
#[derive(Drop)]
pub struct Read<'a> {
    pub tokens: Vec<Token<'a>>,
    pub tree: Tree,
}

/// The tokens; there are no more of them than bytes.
fn tokens_of<'a>(alloc: Global, bytes: &'a [u8]) -> Result<Tokens<'a>, ReadError<'a>>
    requires { length bytes.now < 2 ^ 32 - 1 }
    ensures text { IfOk result (λ t. Text bytes.now (views t.list.items)) }
    ensures few { IfOk result (λ t. length t.list.items ≤ length bytes.now) }
    ensures end { IfOk result (λ t. t.end ≡ end_of bytes.now) }
    ensures refused { IfErr result (λ e. IsNoTree bytes.now e) }
{
    match lex(alloc, bytes) {
        Ok(tokens) => Ok(tokens),
        Err(LexError::Refused(pos, fault)) => Err(ReadError::Refused(Refusal::Bytes(pos, fault))),
        Err(LexError::Memory) => Err(ReadError::Memory),
    }
}

/// The position of the token with this number, or the end.
fn position(tokens: &[Token<'_>], end: Pos, i: usize) -> Pos
    ensures { result ≡ position_of end (views (drop i tokens.now)) }
{
    match first(tokens, i) {
        Some((token, _)) => token.pos,
        None => end,
    }
}

fn stopped<'a>(bytes: &'a [u8], tokens: &[Token<'a>], end: Pos, i: usize) -> ReadError<'a>
    requires text { Text bytes.now (views tokens.now) }
    requires end { end ≡ end_of bytes.now }
    requires stops { IsStopped 200 (views tokens.now) (views (drop i tokens.now)) }
    ensures { IsNoTree bytes.now result }
{
    ReadError::Refused(Refusal::Syntax(position(tokens, end, i)))
}

/// The tree that the tokens of a text spell.
fn parsed<'a>(
    alloc: Global,
    bytes: &'a [u8],
    tokens: &[Token<'a>],
    end: Pos,
) -> Result<Tree, ReadError<'a>>
    requires text { Text bytes.now (views tokens.now) }
    requires few { length tokens.now < 2 ^ 32 - 1 }
    requires end { end ≡ end_of bytes.now }
    ensures read { IfOk result (λ t. IsProgram 200 (views tokens.now) (decls_of t.decls.items)) }
    ensures refused { IfErr result (λ e. IsNoTree bytes.now e) }
{
    match parse(alloc, tokens) {
        Ok(tree) => Ok(tree),
        Err(Stop::Syntax(i)) => Err(stopped(bytes, tokens, end, i)),
        Err(Stop::TooDeep(_)) => Err(ReadError::Refused(Refusal::Nesting)),
        Err(Stop::Memory) => Err(ReadError::Memory),
    }
}

/// The tokens and the tree of a text of fewer than 2^32 - 1 bytes.
///
/// # Errors
/// `Refused` where the bytes hold no tokens (`Bytes`), or else where their tokens spell no program (`Syntax`) or open a
/// 201st bracket (`Nesting`), whichever comes first; and `Memory` where memory ran out.
pub fn tree_of<'a>(alloc: Global, bytes: &'a [u8]) -> Result<Read<'a>, ReadError<'a>>
    requires { length bytes.now < 2 ^ 32 - 1 }
    ensures read { IfOk result (λ r. IsTreeOf bytes.now (views r.tokens.items) (decls_of r.tree.decls.items)) }
    ensures refused { IfErr result (λ e. IsNoTree bytes.now e) }
{
    let tokens = tokens_of(alloc, bytes)?;
    let tree = parsed(alloc, bytes, &tokens.list, tokens.end)?;
    Ok(Read {
        tokens: tokens.list,
        tree,
    })
}
