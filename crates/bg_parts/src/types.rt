//! Types.
ghost use Rattle.std.specs.Prelude.{◌≡◌, ◌∷◌, map, drop, IfOk, IfErr};
ghost use Rattle.bg_text.specs.Tokens.{view, views};
ghost use Rattle.bg_text.specs.Views.{id_of, type_of, tys_of, index_view};
ghost use Rattle.bg_reader.specs.Reading.{Gives, with_read, both, a_sign};
ghost use Rattle.bg_text.specs.declared.token.Kind.TheVariants as kinds;
ghost use Rattle.bg_grammar.specs.Rules.{commas_at, enclosed, rows, below, room};
ghost use Rattle.bg_parts.specs.Types.{base_at, index_at, map_type, type_at, unnamed_at, type_in};

use crate::word::named;
use bg_base::Pos;
use bg_grammar::below;
use bg_reader::{Refusal, after_kind, after_text, expect_kind};
use bg_text::{Kind, Token, TreeType, TypeBracket};
use std::alloc::Global;

fn mapped(alloc: Global, brackets: Vec<TypeBracket>, ty: TreeType) -> Result<TreeType, Refusal>
    ensures ok { IfOk result (λ made. type_of made ≡ map_type (map index_view brackets.items) (type_of ty)) }
    ensures err { IfErr result (λ x. x ≡ Refusal.Memory) }
{
    if brackets.is_empty() {
        Ok(ty)
    } else {
        Ok(TreeType::Map(brackets, Box::new(alloc, ty)?))
    }
}

/// Types with commas between them.
#[cycle(types)]
fn types<'a>(
    alloc: Global,
    limit: usize,
    depth: u32,
    tokens: &[Token<'a>],
    at: usize,
) -> Result<(Vec<TreeType>, usize), Refusal>
    ensures { Gives (λ v. map type_of v.items) (λ j. views (drop j tokens.now)) result (commas_at (type_in limit depth) limit (views (drop at tokens.now))) }
{
    let mut made = Vec::new(alloc);
    let (first, after) = ty(alloc, limit, depth, tokens, at)?;
    made.push(first)?;
    let mut rest = after;
    for _ in 0..limit {
        let Some((_, behind)) = after_kind(Kind::Comma, tokens, rest) else {
            return Ok((made, rest));
        };
        let (next, behind) = ty(alloc, limit, depth, tokens, behind)?;
        made.push(next)?;
        rest = behind;
    }
    Err(Refusal::Memory)
}

/// Index types in brackets.
#[cycle(types)]
#[tactic(auto, unfolding(crate::specs::Types::index_at))]
fn index<'a>(
    alloc: Global,
    limit: usize,
    depth: u32,
    tokens: &[Token<'a>],
    at: usize,
) -> Result<(TypeBracket, usize), Refusal>
    ensures { Gives index_view (λ j. views (drop j tokens.now)) result (index_at limit (room (type_in limit) (below depth)) (views (drop at tokens.now))) }
{
    let Some((pos, after)) = after_kind(Kind::OpenBracket, tokens, at) else {
        return Err(Refusal::Syntax(at));
    };
    let Some(deeper) = below(depth) else {
        return Err(Refusal::TooDeep(at));
    };
    let (indices, after) = types(alloc, limit, deeper, tokens, after)?;
    let (_, after) = expect_kind(Kind::CloseBracket, tokens, after)?;
    Ok((TypeBracket { pos, indices }, after))
}

/// A type in parentheses.
#[cycle(types)]
fn parens<'a>(
    alloc: Global,
    limit: usize,
    depth: u32,
    tokens: &[Token<'a>],
    at: usize,
) -> Result<((Pos, Box<TreeType>), usize), Refusal>
    ensures { Gives (λ v. (v.0, type_of v.1.value)) (λ j. views (drop j tokens.now)) result (enclosed kinds.Open kinds.Close (room (type_in limit) (below depth)) (views (drop at tokens.now))) }
{
    let Some((pos, after)) = after_kind(Kind::Open, tokens, at) else {
        return Err(Refusal::Syntax(at));
    };
    let Some(deeper) = below(depth) else {
        return Err(Refusal::TooDeep(at));
    };
    let (inner, after) = ty(alloc, limit, deeper, tokens, after)?;
    let (_, after) = expect_kind(Kind::Close, tokens, after)?;
    Ok(((pos, Box::new(alloc, inner)?), after))
}

/// A type that is no map.
#[cycle(types)]
#[tactic(auto, unfolding(crate::specs::Types::base_at))]
fn base<'a>(
    alloc: Global,
    limit: usize,
    depth: u32,
    tokens: &[Token<'a>],
    at: usize,
) -> Result<(TreeType, usize), Refusal>
    ensures { Gives type_of (λ j. views (drop j tokens.now)) result (base_at (room (type_in limit) (below depth)) (views (drop at tokens.now))) }
{
    if let Some((pos, after)) = after_kind(Kind::Int, tokens, at) {
        return Ok((TreeType::Int(pos), after));
    }
    if let Some((pos, after)) = after_kind(Kind::Bool, tokens, at) {
        return Ok((TreeType::Bool(pos), after));
    }
    if let Some(((pos, text), after)) = after_text(Kind::Name, tokens, at) {
        return Ok((TreeType::Named(named(alloc, pos, text)?), after));
    }
    let ((pos, inner), after) = parens(alloc, limit, depth, tokens, at)?;
    Ok((TreeType::Parens(pos, inner), after))
}

/// A type: brackets in a row, and a type that is no map.
#[cycle(types)]
#[tactic(auto, unfolding(crate::specs::Types::type_at))]
fn whole<'a>(
    alloc: Global,
    limit: usize,
    depth: u32,
    tokens: &[Token<'a>],
    at: usize,
) -> Result<(TreeType, usize), Refusal>
    ensures { Gives type_of (λ j. views (drop j tokens.now)) result (type_at limit (room (type_in limit) (below depth)) (views (drop at tokens.now))) }
{
    let (brackets, after) = indices(alloc, limit, depth, tokens, at)?;
    let (made, after) = base(alloc, limit, depth, tokens, after)?;
    Ok((mapped(alloc, brackets, made)?, after))
}

/// A type.
#[cycle(types)]
pub fn ty<'a>(
    alloc: Global,
    limit: usize,
    depth: u32,
    tokens: &[Token<'a>],
    at: usize,
) -> Result<(TreeType, usize), Refusal>
    ensures { Gives type_of (λ j. views (drop j tokens.now)) result (type_in limit depth (views (drop at tokens.now))) }
{
    whole(alloc, limit, depth, tokens, at)
}

/// The brackets in a row.
#[cycle(types)]
fn indices<'a>(
    alloc: Global,
    limit: usize,
    depth: u32,
    tokens: &[Token<'a>],
    at: usize,
) -> Result<(Vec<TypeBracket>, usize), Refusal>
    ensures { Gives (λ v. map index_view v.items) (λ j. views (drop j tokens.now)) result (rows (a_sign kinds.OpenBracket) (index_at limit (room (type_in limit) (below depth))) limit (views (drop at tokens.now))) }
{
    let mut made = Vec::new(alloc);
    let mut rest = at;
    for _ in 0..limit {
        let Some(_) = after_kind(Kind::OpenBracket, tokens, rest) else {
            return Ok((made, rest));
        };
        let (next, after) = index(alloc, limit, depth, tokens, rest)?;
        made.push(next)?;
        rest = after;
    }
    Err(Refusal::Memory)
}

fn first_bracket(first: TypeBracket, rest: Vec<TypeBracket>) -> Result<Vec<TypeBracket>, Refusal>
    ensures ok { IfOk result (λ made. made.items ≡ first ∷ rest.items) }
    ensures err { IfErr result (λ x. x ≡ Refusal.Memory) }
{
    let mut made = rest;
    made.insert(0, first)?;
    Ok(made)
}

/// A map type.
fn map_type<'a>(
    alloc: Global,
    limit: usize,
    depth: u32,
    tokens: &[Token<'a>],
    at: usize,
) -> Result<(TreeType, usize), Refusal>
    ensures { Gives type_of (λ j. views (drop j tokens.now)) result (with_read (λ v. map_type (v.0 ∷ v.1.0) v.1.1) (both (index_at limit (room (type_in limit) (below depth))) (both (rows (a_sign kinds.OpenBracket) (index_at limit (room (type_in limit) (below depth))) limit) (base_at (room (type_in limit) (below depth)))) (views (drop at tokens.now)))) }
{
    let (first, after) = index(alloc, limit, depth, tokens, at)?;
    let (rest, after) = indices(alloc, limit, depth, tokens, after)?;
    let (made, after) = base(alloc, limit, depth, tokens, after)?;
    let brackets = first_bracket(first, rest)?;
    Ok((mapped(alloc, brackets, made)?, after))
}

/// A type that doesn't begin with a name.
#[tactic(auto, unfolding(crate::specs::Types::unnamed_at))]
pub fn unnamed<'a>(
    alloc: Global,
    limit: usize,
    depth: u32,
    tokens: &[Token<'a>],
    at: usize,
) -> Result<(TreeType, usize), Refusal>
    ensures { Gives type_of (λ j. views (drop j tokens.now)) result (unnamed_at limit (room (type_in limit) (below depth)) (views (drop at tokens.now))) }
{
    if let Some(_) = after_kind(Kind::OpenBracket, tokens, at) {
        return map_type(alloc, limit, depth, tokens, at);
    }
    if let Some((pos, after)) = after_kind(Kind::Int, tokens, at) {
        return Ok((TreeType::Int(pos), after));
    }
    if let Some((pos, after)) = after_kind(Kind::Bool, tokens, at) {
        return Ok((TreeType::Bool(pos), after));
    }
    let ((pos, inner), after) = parens(alloc, limit, depth, tokens, at)?;
    Ok((TreeType::Parens(pos, inner), after))
}
