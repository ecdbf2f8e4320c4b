//! Declarations of types, constants, axioms and variables.
ghost use Rattle.std.specs.Prelude.{◌≡◌, ◌∷◌, [], map, drop, IfOk, IfErr, Some, None};
ghost use Rattle.bg_text.specs.declared.token.Kind.TheVariants as kinds;
ghost use Rattle.bg_text.specs.Tokens.{view, views};
ghost use Rattle.bg_text.specs.Views.{id_of, type_of, option_of, new_type_of, vars_of, decl_of};
ghost use Rattle.bg_reader.specs.Reading.{Gives};
ghost use Rattle.bg_grammar.specs.Rules.{commas_at};
ghost use Rattle.bg_parse.specs.Declarations.{new_type_at, types_at, unique_at, constants_at, axiom_at, vars_at};

use bg_parts::{attributes, groups, name, names, says, ty};
use bg_reader::{Refusal, after_kind, expect_kind};
use bg_text::{Constants, Decl, Formals, Kind, Token, TypeDecl, Variables};
use std::alloc::Global;

/// A type that is declared.
#[tactic(auto, unfolding(crate::specs::Declarations::new_type_at))]
fn type_decl<'a>(
    alloc: Global,
    limit: usize,
    depth: u32,
    tokens: &[Token<'a>],
    at: usize,
) -> Result<(TypeDecl, usize), Refusal>
    ensures { Gives new_type_of (λ j. views (drop j tokens.now)) result (new_type_at limit depth (views (drop at tokens.now))) }
{
    let (name, after) = name(alloc, tokens, at)?;
    let Some((_, behind)) = after_kind(Kind::Sets, tokens, after) else {
        return Ok((
            TypeDecl {
                name,
                synonym: None,
            },
            after,
        ));
    };
    let (ty, behind) = ty(alloc, limit, depth, tokens, behind)?;
    let made = TypeDecl {
        name,
        synonym: Some(ty),
    };
    Ok((made, behind))
}

/// Types that are declared, with commas between them.
fn type_decls<'a>(
    alloc: Global,
    limit: usize,
    depth: u32,
    tokens: &[Token<'a>],
    at: usize,
) -> Result<(Vec<TypeDecl>, usize), Refusal>
    ensures { Gives (λ v. map new_type_of v.items) (λ j. views (drop j tokens.now)) result (commas_at (new_type_at limit depth) limit (views (drop at tokens.now))) }
{
    let mut made = Vec::new(alloc);
    let (first, after) = type_decl(alloc, limit, depth, tokens, at)?;
    made.push(first)?;
    let mut rest = after;
    for _ in 0..limit {
        let Some((_, behind)) = after_kind(Kind::Comma, tokens, rest) else {
            return Ok((made, rest));
        };
        let (next, behind) = type_decl(alloc, limit, depth, tokens, behind)?;
        made.push(next)?;
        rest = behind;
    }
    Err(Refusal::Memory)
}

/// A declaration of types.
#[tactic(auto, unfolding(crate::specs::Declarations::types_at))]
pub(crate) fn types_decl<'a>(
    alloc: Global,
    limit: usize,
    depth: u32,
    tokens: &[Token<'a>],
    at: usize,
) -> Result<(Decl, usize), Refusal>
    ensures { Gives decl_of (λ j. views (drop j tokens.now)) result (types_at limit depth (views (drop at tokens.now))) }
{
    let (pos, after) = expect_kind(Kind::Type, tokens, at)?;
    let (attributes, after) = attributes(alloc, limit, depth, tokens, after)?;
    let (made, after) = type_decls(alloc, limit, depth, tokens, after)?;
    let (_, after) = expect_kind(Kind::Semicolon, tokens, after)?;
    Ok((Decl::Types(pos, attributes, made), after))
}

/// Whether `unique` stands, and the place behind it.
#[tactic(auto, unfolding(crate::specs::Declarations::unique_at))]
fn unique<'a>(tokens: &[Token<'a>], at: usize) -> Result<(bool, usize), Refusal>
    ensures { Gives (λ b. b) (λ j. views (drop j tokens.now)) result (unique_at (views (drop at tokens.now))) }
{
    match after_kind(Kind::Unique, tokens, at) {
        Some((_, after)) => Ok((true, after)),
        None => Ok((false, at)),
    }
}

/// A declaration of constants.
#[tactic(auto, unfolding(crate::specs::Declarations::constants_at))]
pub(crate) fn constants<'a>(
    alloc: Global,
    limit: usize,
    depth: u32,
    tokens: &[Token<'a>],
    at: usize,
) -> Result<(Decl, usize), Refusal>
    ensures { Gives decl_of (λ j. views (drop j tokens.now)) result (constants_at limit depth (views (drop at tokens.now))) }
{
    let (pos, after) = expect_kind(Kind::Const, tokens, at)?;
    let (attributes, after) = attributes(alloc, limit, depth, tokens, after)?;
    let (is_unique, after) = unique(tokens, after)?;
    let (names, after) = names(alloc, limit, tokens, after)?;
    let (_, after) = expect_kind(Kind::Colon, tokens, after)?;
    let (ty, after) = ty(alloc, limit, depth, tokens, after)?;
    let (_, after) = expect_kind(Kind::Semicolon, tokens, after)?;
    let formals = Formals {
        attributes,
        names,
        ty,
    };
    let made = Constants {
        pos,
        is_unique,
        formals,
    };
    Ok((Decl::Constants(made), after))
}

/// An axiom.
#[tactic(auto, unfolding(crate::specs::Declarations::axiom_at))]
pub(crate) fn axiom<'a>(
    alloc: Global,
    limit: usize,
    depth: u32,
    tokens: &[Token<'a>],
    at: usize,
) -> Result<(Decl, usize), Refusal>
    ensures { Gives decl_of (λ j. views (drop j tokens.now)) result (axiom_at limit depth (views (drop at tokens.now))) }
{
    let (pos, after) = expect_kind(Kind::Axiom, tokens, at)?;
    let ((attributes, formula), after) = says(alloc, limit, depth, tokens, after)?;
    Ok((Decl::Axiom(pos, attributes, formula), after))
}

/// Variables.
#[tactic(auto, unfolding(crate::specs::Declarations::vars_at))]
pub(crate) fn variables<'a>(
    alloc: Global,
    limit: usize,
    depth: u32,
    tokens: &[Token<'a>],
    at: usize,
) -> Result<(Variables, usize), Refusal>
    ensures { Gives vars_of (λ j. views (drop j tokens.now)) result (vars_at limit depth (views (drop at tokens.now))) }
{
    let (pos, after) = expect_kind(Kind::Var, tokens, at)?;
    let (groups, after) = groups(alloc, limit, depth, tokens, after)?;
    let (_, after) = expect_kind(Kind::Semicolon, tokens, after)?;
    Ok((Variables { pos, groups }, after))
}
