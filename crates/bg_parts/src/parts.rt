//! Attributes, names with their type, and clauses.
ghost use Rattle.std.specs.Prelude.{◌≡◌, map, drop, true, false, [], ◌∷◌};
ghost use Rattle.bg_text.specs.declared.token.Kind.TheVariants as kinds;
ghost use Rattle.bg_text.specs.Tokens.{view, views};
ghost use Rattle.bg_text.specs.Views.{id_of, ex_of, exs_in, type_of, arg_of, attr_of, group_of, clause_of};
ghost use Rattle.bg_reader.specs.Reading.{Gives};
ghost use Rattle.bg_expr.specs.Exprs.{expr_at};
ghost use Rattle.bg_grammar.specs.Rules.{commas_at, list_closed, rows, a_kind};
ghost use Rattle.bg_parts.specs.Parts.{exs_at, args_in, arg_at, attr_rest, attr_at, attrs_at, ids_at, group_at, says_at, clause_at, invariant_at};

use crate::types::ty;
use crate::word::name;
use bg_expr::read_expr;
use bg_grammar::{after_one_of, below};
use bg_reader::{Refusal, after_kind, after_text, expect_kind};
use bg_text::{Attribute, AttributeArg, Formals, Kind, Name, Token, TreeClause, TreeExpr};
use std::alloc::Global;

/// Expressions with commas between them.
pub fn expressions<'a>(
    alloc: Global,
    limit: usize,
    depth: u32,
    tokens: &[Token<'a>],
    at: usize,
) -> Result<(Vec<TreeExpr>, usize), Refusal>
    ensures { Gives (λ v. map ex_of v.items) (λ j. views (drop j tokens.now)) result (commas_at (expr_at limit depth) limit (views (drop at tokens.now))) }
{
    let mut made = Vec::new(alloc);
    let (first, after) = read_expr(alloc, limit, depth, tokens, at)?;
    made.push(first)?;
    let mut rest = after;
    for _ in 0..limit {
        let Some((_, behind)) = after_kind(Kind::Comma, tokens, rest) else {
            return Ok((made, rest));
        };
        let (next, behind) = read_expr(alloc, limit, depth, tokens, behind)?;
        made.push(next)?;
        rest = behind;
    }
    Err(Refusal::Memory)
}

/// Expressions with commas between them, as one list.
#[tactic(auto, unfolding(crate::specs::Parts::exs_at))]
pub fn exprs<'a>(
    alloc: Global,
    limit: usize,
    depth: u32,
    tokens: &[Token<'a>],
    at: usize,
) -> Result<(Vec<TreeExpr>, usize), Refusal>
    ensures { Gives (λ v. exs_in v.items) (λ j. views (drop j tokens.now)) result (exs_at limit depth (views (drop at tokens.now))) }
{
    expressions(alloc, limit, depth, tokens, at)
}

/// Expressions with commas between them, or none, and the closing parenthesis.
#[tactic(auto, unfolding(crate::specs::Parts::args_in))]
pub fn args<'a>(
    alloc: Global,
    limit: usize,
    depth: u32,
    tokens: &[Token<'a>],
    at: usize,
) -> Result<(Vec<TreeExpr>, usize), Refusal>
    ensures { Gives (λ v. exs_in v.items) (λ j. views (drop j tokens.now)) result (args_in limit depth (views (drop at tokens.now))) }
{
    if let Some((_, after)) = after_kind(Kind::Close, tokens, at) {
        return Ok((Vec::new(alloc), after));
    }
    let (made, after) = expressions(alloc, limit, depth, tokens, at)?;
    let (_, after) = expect_kind(Kind::Close, tokens, after)?;
    Ok((made, after))
}

/// An argument of an attribute.
#[tactic(auto, unfolding(crate::specs::Parts::arg_at))]
fn attribute_arg<'a>(
    alloc: Global,
    limit: usize,
    depth: u32,
    tokens: &[Token<'a>],
    at: usize,
) -> Result<(AttributeArg, usize), Refusal>
    ensures { Gives arg_of (λ j. views (drop j tokens.now)) result (arg_at limit depth (views (drop at tokens.now))) }
{
    if let Some(((_, text), after)) = after_text(Kind::Quoted, tokens, at) {
        return Ok((AttributeArg::Quoted(text.to_vec(alloc)?), after));
    }
    let (formula, after) = read_expr(alloc, limit, depth, tokens, at)?;
    Ok((AttributeArg::Formula(formula), after))
}

/// Arguments with commas between them.
fn attribute_args<'a>(
    alloc: Global,
    limit: usize,
    depth: u32,
    tokens: &[Token<'a>],
    at: usize,
) -> Result<(Vec<AttributeArg>, usize), Refusal>
    ensures { Gives (λ v. map arg_of v.items) (λ j. views (drop j tokens.now)) result (commas_at (arg_at limit depth) limit (views (drop at tokens.now))) }
{
    let mut made = Vec::new(alloc);
    let (first, after) = attribute_arg(alloc, limit, depth, tokens, at)?;
    made.push(first)?;
    let mut rest = after;
    for _ in 0..limit {
        let Some((_, behind)) = after_kind(Kind::Comma, tokens, rest) else {
            return Ok((made, rest));
        };
        let (next, behind) = attribute_arg(alloc, limit, depth, tokens, behind)?;
        made.push(next)?;
        rest = behind;
    }
    Err(Refusal::Memory)
}

/// The arguments of an attribute, or none, and its closing brace.
fn closed_args<'a>(
    alloc: Global,
    limit: usize,
    depth: u32,
    tokens: &[Token<'a>],
    at: usize,
) -> Result<(Vec<AttributeArg>, usize), Refusal>
    ensures { Gives (λ v. map arg_of v.items) (λ j. views (drop j tokens.now)) result (list_closed kinds.CloseBrace (arg_at limit depth) limit (views (drop at tokens.now))) }
{
    if let Some((_, after)) = after_kind(Kind::CloseBrace, tokens, at) {
        return Ok((Vec::new(alloc), after));
    }
    let (made, after) = attribute_args(alloc, limit, depth, tokens, at)?;
    let (_, after) = expect_kind(Kind::CloseBrace, tokens, after)?;
    Ok((made, after))
}

/// An attribute behind its brace.
#[tactic(auto, unfolding(crate::specs::Parts::attr_rest))]
fn attribute_rest<'a>(
    alloc: Global,
    limit: usize,
    depth: u32,
    tokens: &[Token<'a>],
    at: usize,
) -> Result<(Attribute, usize), Refusal>
    ensures { Gives attr_of (λ j. views (drop j tokens.now)) result (attr_rest limit depth (views (drop at tokens.now))) }
{
    let (_, after) = expect_kind(Kind::Colon, tokens, at)?;
    let (name, after) = name(alloc, tokens, after)?;
    let (args, after) = closed_args(alloc, limit, depth, tokens, after)?;
    Ok((Attribute { name, args }, after))
}

/// An attribute.
#[tactic(auto, unfolding(crate::specs::Parts::attr_at))]
fn attribute<'a>(
    alloc: Global,
    limit: usize,
    depth: u32,
    tokens: &[Token<'a>],
    at: usize,
) -> Result<(Attribute, usize), Refusal>
    ensures { Gives attr_of (λ j. views (drop j tokens.now)) result (attr_at limit depth (views (drop at tokens.now))) }
{
    let (_, after) = expect_kind(Kind::OpenBrace, tokens, at)?;
    let Some(deeper) = below(depth) else {
        return Err(Refusal::TooDeep(at));
    };
    attribute_rest(alloc, limit, deeper, tokens, after)
}

/// Attributes in a row.
#[tactic(auto, unfolding(crate::specs::Parts::attrs_at))]
pub fn attributes<'a>(
    alloc: Global,
    limit: usize,
    depth: u32,
    tokens: &[Token<'a>],
    at: usize,
) -> Result<(Vec<Attribute>, usize), Refusal>
    ensures { Gives (λ v. map attr_of v.items) (λ j. views (drop j tokens.now)) result (attrs_at limit depth (views (drop at tokens.now))) }
{
    let mut made = Vec::new(alloc);
    let mut rest = at;
    for _ in 0..limit {
        let Some(_) = after_kind(Kind::OpenBrace, tokens, rest) else {
            return Ok((made, rest));
        };
        let (next, after) = attribute(alloc, limit, depth, tokens, rest)?;
        made.push(next)?;
        rest = after;
    }
    Err(Refusal::Memory)
}

/// Names with commas between them.
#[tactic(auto, unfolding(crate::specs::Parts::ids_at))]
pub fn names<'a>(
    alloc: Global,
    limit: usize,
    tokens: &[Token<'a>],
    at: usize,
) -> Result<(Vec<Name>, usize), Refusal>
    ensures { Gives (λ v. map id_of v.items) (λ j. views (drop j tokens.now)) result (ids_at limit (views (drop at tokens.now))) }
{
    let mut made = Vec::new(alloc);
    let (first, after) = name(alloc, tokens, at)?;
    made.push(first)?;
    let mut rest = after;
    for _ in 0..limit {
        let Some((_, behind)) = after_kind(Kind::Comma, tokens, rest) else {
            return Ok((made, rest));
        };
        let (next, behind) = name(alloc, tokens, behind)?;
        made.push(next)?;
        rest = behind;
    }
    Err(Refusal::Memory)
}

/// Names and their type, with the attributes before them.
#[tactic(auto, unfolding(crate::specs::Parts::group_at))]
fn formals<'a>(
    alloc: Global,
    limit: usize,
    depth: u32,
    tokens: &[Token<'a>],
    at: usize,
) -> Result<(Formals, usize), Refusal>
    ensures { Gives group_of (λ j. views (drop j tokens.now)) result (group_at limit depth (views (drop at tokens.now))) }
{
    let (attributes, after) = attributes(alloc, limit, depth, tokens, at)?;
    let (names, after) = names(alloc, limit, tokens, after)?;
    let (_, after) = expect_kind(Kind::Colon, tokens, after)?;
    let (ty, after) = ty(alloc, limit, depth, tokens, after)?;
    Ok((
        Formals {
            attributes,
            names,
            ty,
        },
        after,
    ))
}

/// Groups of names with commas between them.
pub fn groups<'a>(
    alloc: Global,
    limit: usize,
    depth: u32,
    tokens: &[Token<'a>],
    at: usize,
) -> Result<(Vec<Formals>, usize), Refusal>
    ensures { Gives (λ v. map group_of v.items) (λ j. views (drop j tokens.now)) result (commas_at (group_at limit depth) limit (views (drop at tokens.now))) }
{
    let mut made = Vec::new(alloc);
    let (first, after) = formals(alloc, limit, depth, tokens, at)?;
    made.push(first)?;
    let mut rest = after;
    for _ in 0..limit {
        let Some((_, behind)) = after_kind(Kind::Comma, tokens, rest) else {
            return Ok((made, rest));
        };
        let (next, behind) = formals(alloc, limit, depth, tokens, behind)?;
        made.push(next)?;
        rest = behind;
    }
    Err(Refusal::Memory)
}

/// What a clause says, behind its first words.
#[tactic(auto, unfolding(crate::specs::Parts::says_at))]
pub fn says<'a>(
    alloc: Global,
    limit: usize,
    depth: u32,
    tokens: &[Token<'a>],
    at: usize,
) -> Result<((Vec<Attribute>, TreeExpr), usize), Refusal>
    ensures { Gives (λ v. (map attr_of v.0.items, ex_of v.1)) (λ j. views (drop j tokens.now)) result (says_at limit depth (views (drop at tokens.now))) }
{
    let (attributes, after) = attributes(alloc, limit, depth, tokens, at)?;
    let (formula, after) = read_expr(alloc, limit, depth, tokens, after)?;
    let (_, after) = expect_kind(Kind::Semicolon, tokens, after)?;
    Ok(((attributes, formula), after))
}

/// A clause that begins with the word.
#[tactic(auto, unfolding(crate::specs::Parts::clause_at))]
pub fn clause<'a>(
    alloc: Global,
    limit: usize,
    depth: u32,
    word: Kind,
    tokens: &[Token<'a>],
    at: usize,
) -> Result<(TreeClause, usize), Refusal>
    ensures { Gives clause_of (λ j. views (drop j tokens.now)) result (clause_at limit depth word (views (drop at tokens.now))) }
{
    let (pos, after) = expect_kind(word, tokens, at)?;
    let ((attributes, formula), after) = says(alloc, limit, depth, tokens, after)?;
    let clause = TreeClause {
        pos,
        is_free: false,
        attributes,
        formula,
    };
    Ok((clause, after))
}

/// An invariant, with `free` before it or without.
#[tactic(auto, unfolding(crate::specs::Parts::invariant_at))]
fn invariant<'a>(
    alloc: Global,
    limit: usize,
    depth: u32,
    tokens: &[Token<'a>],
    at: usize,
) -> Result<(TreeClause, usize), Refusal>
    ensures { Gives clause_of (λ j. views (drop j tokens.now)) result (invariant_at limit depth (views (drop at tokens.now))) }
{
    let Some((pos, after)) = after_kind(Kind::Free, tokens, at) else {
        return clause(alloc, limit, depth, Kind::Invariant, tokens, at);
    };
    let (_, after) = expect_kind(Kind::Invariant, tokens, after)?;
    let ((attributes, formula), after) = says(alloc, limit, depth, tokens, after)?;
    let clause = TreeClause {
        pos,
        is_free: true,
        attributes,
        formula,
    };
    Ok((clause, after))
}

/// Invariants in a row.
pub fn invariants<'a>(
    alloc: Global,
    limit: usize,
    depth: u32,
    tokens: &[Token<'a>],
    at: usize,
) -> Result<(Vec<TreeClause>, usize), Refusal>
    ensures { Gives (λ v. map clause_of v.items) (λ j. views (drop j tokens.now)) result (rows (a_kind (kinds.Free ∷ kinds.Invariant ∷ [])) (invariant_at limit depth) limit (views (drop at tokens.now))) }
{
    let mut made = Vec::new(alloc);
    let mut rest = at;
    for _ in 0..limit {
        let Some(_) = after_one_of(&[Kind::Free, Kind::Invariant], tokens, rest) else {
            return Ok((made, rest));
        };
        let (next, after) = invariant(alloc, limit, depth, tokens, rest)?;
        made.push(next)?;
        rest = after;
    }
    Err(Refusal::Memory)
}
