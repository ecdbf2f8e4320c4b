//! Declarations.
ghost use Rattle.std.specs.Prelude.{◌≡◌, ◌∷◌, [], map, drop, IfOk, IfErr, Some, None};
ghost use Rattle.bg_text.specs.declared.token.Kind.TheVariants as kinds;
ghost use Rattle.bg_text.specs.Tokens.{view, views};
ghost use Rattle.bg_text.specs.Views.{decl_of, vars_of};
ghost use Rattle.bg_reader.specs.Reading.{Gives};
ghost use Rattle.bg_parse.specs.Declarations.{big_at, decl_at, decls_at};

use crate::constants::{axiom, constants, types_decl, variables};
use crate::functions::function;
use crate::procedures::{implementation, procedure};
use bg_grammar::after_one_of;
use bg_reader::{Refusal, after_kind};
use bg_text::{Decl, Kind, Token};
use std::alloc::Global;

/// Variables, a procedure or an implementation.
#[tactic(auto, unfolding(crate::specs::Declarations::big_at))]
fn big<'a>(
    alloc: Global,
    limit: usize,
    depth: u32,
    tokens: &[Token<'a>],
    at: usize,
) -> Result<(Decl, usize), Refusal>
    ensures { Gives decl_of (λ j. views (drop j tokens.now)) result (big_at limit depth (views (drop at tokens.now))) }
{
    if let Some(_) = after_kind(Kind::Var, tokens, at) {
        let (made, after) = variables(alloc, limit, depth, tokens, at)?;
        return Ok((Decl::Variables(made), after));
    }
    if let Some(_) = after_kind(Kind::Procedure, tokens, at) {
        return procedure(alloc, limit, depth, tokens, at);
    }
    implementation(alloc, limit, depth, tokens, at)
}

/// A declaration.
#[tactic(auto, unfolding(crate::specs::Declarations::decl_at))]
fn decl<'a>(
    alloc: Global,
    limit: usize,
    depth: u32,
    tokens: &[Token<'a>],
    at: usize,
) -> Result<(Decl, usize), Refusal>
    ensures { Gives decl_of (λ j. views (drop j tokens.now)) result (decl_at limit depth (views (drop at tokens.now))) }
{
    if let Some(_) = after_kind(Kind::Type, tokens, at) {
        return types_decl(alloc, limit, depth, tokens, at);
    }
    if let Some(_) = after_kind(Kind::Const, tokens, at) {
        return constants(alloc, limit, depth, tokens, at);
    }
    if let Some(_) = after_kind(Kind::Function, tokens, at) {
        return function(alloc, limit, depth, tokens, at);
    }
    if let Some(_) = after_kind(Kind::Axiom, tokens, at) {
        return axiom(alloc, limit, depth, tokens, at);
    }
    big(alloc, limit, depth, tokens, at)
}

/// Declarations one after the other.
#[tactic(auto, unfolding(crate::specs::Declarations::decls_at))]
pub(crate) fn decls<'a>(
    alloc: Global,
    limit: usize,
    depth: u32,
    tokens: &[Token<'a>],
    at: usize,
) -> Result<(Vec<Decl>, usize), Refusal>
    ensures { Gives (λ v. map decl_of v.items) (λ j. views (drop j tokens.now)) result (decls_at limit depth (views (drop at tokens.now))) }
{
    let mut made = Vec::new(alloc);
    let mut rest = at;
    for _ in 0..limit {
        let Some(_) = after_one_of(
            &[
                Kind::Type,
                Kind::Const,
                Kind::Function,
                Kind::Axiom,
                Kind::Var,
                Kind::Procedure,
                Kind::Implementation,
            ],
            tokens,
            rest,
        ) else {
            return Ok((made, rest));
        };
        let (next, after) = decl(alloc, limit, depth, tokens, rest)?;
        made.push(next)?;
        rest = after;
    }
    Err(Refusal::Memory)
}
