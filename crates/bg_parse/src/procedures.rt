//! Procedures and implementations.
ghost use Rattle.std.specs.Prelude.{◌≡◌, ◌∷◌, [], map, drop, IfOk, IfErr, Some, None};
ghost use Rattle.bg_text.specs.declared.token.Kind.TheVariants as kinds;
ghost use Rattle.bg_text.specs.Tokens.{view, views};
ghost use Rattle.bg_text.specs.Views.{id_of, ex_of, attr_of, group_of, clause_of, sts_in, option_of, sig_of, spec_of, vars_of, body_of, decl_of};
ghost use Rattle.bg_reader.specs.Reading.{Gives, a_sign, with_read, both, one};
ghost use Rattle.bg_grammar.specs.Rules.{rows, a_kind};
ghost use Rattle.bg_parse.specs.Declarations.{vars_at, params_in, params_at, sig_at, free_at, free_spec, modifies_at, spec_kinds, spec_at, specs_at, body_in, body_at, tail_at, procedure_at, implementation_at};

use crate::constants::variables;
use bg_grammar::{after_one_of, below};
use bg_parts::{attributes, clause, groups, name, names, says};
use bg_reader::{Refusal, after_kind, expect_kind};
use bg_stmts::stmts;
use bg_text::{
    Attribute, Body, Decl, Formals, Implementation, Kind, Name, Procedure, Signature, Spec, Token,
    TreeClause, TreeExpr, Variables,
};
use std::alloc::Global;

/// Parameters or none, and the closing parenthesis.
#[tactic(auto, unfolding(crate::specs::Declarations::params_in))]
fn closed_params<'a>(
    alloc: Global,
    limit: usize,
    depth: u32,
    tokens: &[Token<'a>],
    at: usize,
) -> Result<(Vec<Formals>, usize), Refusal>
    ensures { Gives (λ v. map group_of v.items) (λ j. views (drop j tokens.now)) result (params_in limit depth (views (drop at tokens.now))) }
{
    if let Some((_, after)) = after_kind(Kind::Close, tokens, at) {
        return Ok((Vec::new(alloc), after));
    }
    let (made, after) = groups(alloc, limit, depth, tokens, at)?;
    let (_, after) = expect_kind(Kind::Close, tokens, after)?;
    Ok((made, after))
}

/// Parameters in their parentheses.
#[tactic(auto, unfolding(crate::specs::Declarations::params_at))]
fn params<'a>(
    alloc: Global,
    limit: usize,
    depth: u32,
    tokens: &[Token<'a>],
    at: usize,
) -> Result<(Vec<Formals>, usize), Refusal>
    ensures { Gives (λ v. map group_of v.items) (λ j. views (drop j tokens.now)) result (params_at limit depth (views (drop at tokens.now))) }
{
    let (_, after) = expect_kind(Kind::Open, tokens, at)?;
    let Some(deeper) = below(depth) else {
        return Err(Refusal::TooDeep(at));
    };
    closed_params(alloc, limit, deeper, tokens, after)
}

/// The parameters and the results.
#[tactic(auto, unfolding(crate::specs::Declarations::sig_at))]
fn signature<'a>(
    alloc: Global,
    limit: usize,
    depth: u32,
    tokens: &[Token<'a>],
    at: usize,
) -> Result<(Signature, usize), Refusal>
    ensures { Gives sig_of (λ j. views (drop j tokens.now)) result (sig_at limit depth (views (drop at tokens.now))) }
{
    let (params_, after) = params(alloc, limit, depth, tokens, at)?;
    let Some((_, behind)) = after_kind(Kind::Returns, tokens, after) else {
        let made = Signature {
            params: params_,
            results: None,
        };
        return Ok((made, after));
    };
    let (results, behind) = params(alloc, limit, depth, tokens, behind)?;
    let made = Signature {
        params: params_,
        results: Some(results),
    };
    Ok((made, behind))
}

/// A clause behind `free`: whether it is a `requires`, and what it says.
#[tactic(auto, unfolding(crate::specs::Declarations::free_at))]
fn freed<'a>(
    alloc: Global,
    limit: usize,
    depth: u32,
    tokens: &[Token<'a>],
    at: usize,
) -> Result<((bool, (Vec<Attribute>, TreeExpr)), usize), Refusal>
    ensures { Gives (λ v. (v.0, (map attr_of v.1.0.items, ex_of v.1.1))) (λ j. views (drop j tokens.now)) result (free_at limit depth (views (drop at tokens.now))) }
{
    if let Some((_, after)) = after_kind(Kind::Requires, tokens, at) {
        let (made, after) = says(alloc, limit, depth, tokens, after)?;
        return Ok(((true, made), after));
    }
    let (_, after) = expect_kind(Kind::Ensures, tokens, at)?;
    let (made, after) = says(alloc, limit, depth, tokens, after)?;
    Ok(((false, made), after))
}

/// Names or none, and the semicolon.
#[tactic(auto, unfolding(crate::specs::Declarations::modifies_at, bg_parts::specs::Parts::ids_at))]
fn modified<'a>(
    alloc: Global,
    limit: usize,
    tokens: &[Token<'a>],
    at: usize,
) -> Result<(Vec<Name>, usize), Refusal>
    ensures { Gives (λ v. map id_of v.items) (λ j. views (drop j tokens.now)) result (modifies_at limit (views (drop at tokens.now))) }
{
    if let Some((_, after)) = after_kind(Kind::Semicolon, tokens, at) {
        return Ok((Vec::new(alloc), after));
    }
    let (made, after) = names(alloc, limit, tokens, at)?;
    let (_, after) = expect_kind(Kind::Semicolon, tokens, after)?;
    Ok((made, after))
}

/// A free clause of a specification.
fn free_spec<'a>(
    alloc: Global,
    limit: usize,
    depth: u32,
    tokens: &[Token<'a>],
    at: usize,
) -> Result<(Spec, usize), Refusal>
    ensures { Gives spec_of (λ j. views (drop j tokens.now)) result (with_read (λ v. free_spec v.0 v.1.0 v.1.1) (both (one (a_sign kinds.Free)) (free_at limit depth) (views (drop at tokens.now)))) }
{
    let (pos, after) = expect_kind(Kind::Free, tokens, at)?;
    let ((is_requires, (attributes, formula)), after) = freed(alloc, limit, depth, tokens, after)?;
    let clause = TreeClause {
        pos,
        is_free: true,
        attributes,
        formula,
    };
    if is_requires {
        Ok((Spec::Requires(clause), after))
    } else {
        Ok((Spec::Ensures(clause), after))
    }
}

/// A part of a specification.
#[tactic(auto, unfolding(crate::specs::Declarations::spec_at))]
fn spec<'a>(
    alloc: Global,
    limit: usize,
    depth: u32,
    tokens: &[Token<'a>],
    at: usize,
) -> Result<(Spec, usize), Refusal>
    ensures { Gives spec_of (λ j. views (drop j tokens.now)) result (spec_at limit depth (views (drop at tokens.now))) }
{
    if let Some((pos, after)) = after_kind(Kind::Modifies, tokens, at) {
        let (names, after) = modified(alloc, limit, tokens, after)?;
        return Ok((Spec::Modifies(pos, names), after));
    }
    if let Some(_) = after_kind(Kind::Free, tokens, at) {
        return free_spec(alloc, limit, depth, tokens, at);
    }
    if let Some(_) = after_kind(Kind::Requires, tokens, at) {
        let (clause, after) = clause(alloc, limit, depth, Kind::Requires, tokens, at)?;
        return Ok((Spec::Requires(clause), after));
    }
    let (clause, after) = clause(alloc, limit, depth, Kind::Ensures, tokens, at)?;
    Ok((Spec::Ensures(clause), after))
}

/// A specification.
#[tactic(auto, unfolding(crate::specs::Declarations::specs_at))]
fn specs<'a>(
    alloc: Global,
    limit: usize,
    depth: u32,
    tokens: &[Token<'a>],
    at: usize,
) -> Result<(Vec<Spec>, usize), Refusal>
    ensures { Gives (λ v. map spec_of v.items) (λ j. views (drop j tokens.now)) result (specs_at limit depth (views (drop at tokens.now))) }
{
    let mut made = Vec::new(alloc);
    let mut rest = at;
    for _ in 0..limit {
        let Some(_) = after_one_of(
            &[Kind::Modifies, Kind::Free, Kind::Requires, Kind::Ensures],
            tokens,
            rest,
        ) else {
            return Ok((made, rest));
        };
        let (next, after) = spec(alloc, limit, depth, tokens, rest)?;
        made.push(next)?;
        rest = after;
    }
    Err(Refusal::Memory)
}

/// The locals of a body.
fn locals<'a>(
    alloc: Global,
    limit: usize,
    depth: u32,
    tokens: &[Token<'a>],
    at: usize,
) -> Result<(Vec<Variables>, usize), Refusal>
    ensures { Gives (λ v. map vars_of v.items) (λ j. views (drop j tokens.now)) result (rows (a_sign kinds.Var) (vars_at limit depth) limit (views (drop at tokens.now))) }
{
    let mut made = Vec::new(alloc);
    let mut rest = at;
    for _ in 0..limit {
        let Some(_) = after_kind(Kind::Var, tokens, rest) else {
            return Ok((made, rest));
        };
        let (next, after) = variables(alloc, limit, depth, tokens, rest)?;
        made.push(next)?;
        rest = after;
    }
    Err(Refusal::Memory)
}

/// A body behind its brace.
#[tactic(auto, unfolding(crate::specs::Declarations::body_in))]
fn body_inner<'a>(
    alloc: Global,
    limit: usize,
    depth: u32,
    tokens: &[Token<'a>],
    at: usize,
) -> Result<(Body, usize), Refusal>
    ensures { Gives body_of (λ j. views (drop j tokens.now)) result (body_in limit depth (views (drop at tokens.now))) }
{
    let (locals, after) = locals(alloc, limit, depth, tokens, at)?;
    let (stmts, after) = stmts(alloc, limit, depth, tokens, after)?;
    Ok((Body { locals, stmts }, after))
}

/// A body.
#[tactic(auto, unfolding(crate::specs::Declarations::body_at))]
fn body<'a>(
    alloc: Global,
    limit: usize,
    depth: u32,
    tokens: &[Token<'a>],
    at: usize,
) -> Result<(Body, usize), Refusal>
    ensures { Gives body_of (λ j. views (drop j tokens.now)) result (body_at limit depth (views (drop at tokens.now))) }
{
    let (_, after) = expect_kind(Kind::OpenBrace, tokens, at)?;
    let Some(deeper) = below(depth) else {
        return Err(Refusal::TooDeep(at));
    };
    let (made, after) = body_inner(alloc, limit, deeper, tokens, after)?;
    let (_, after) = expect_kind(Kind::CloseBrace, tokens, after)?;
    Ok((made, after))
}

/// A procedure behind its signature: its specification, and its body if it has one.
#[tactic(auto, unfolding(crate::specs::Declarations::tail_at))]
fn tail<'a>(
    alloc: Global,
    limit: usize,
    depth: u32,
    tokens: &[Token<'a>],
    at: usize,
) -> Result<((Vec<Spec>, Option<Body>), usize), Refusal>
    ensures { Gives (λ v. (map spec_of v.0.items, option_of body_of v.1)) (λ j. views (drop j tokens.now)) result (tail_at limit depth (views (drop at tokens.now))) }
{
    if let Some((_, after)) = after_kind(Kind::Semicolon, tokens, at) {
        let (specs, after) = specs(alloc, limit, depth, tokens, after)?;
        return Ok(((specs, None), after));
    }
    let (specs, after) = specs(alloc, limit, depth, tokens, at)?;
    let (made, after) = body(alloc, limit, depth, tokens, after)?;
    Ok(((specs, Some(made)), after))
}

/// A procedure.
#[tactic(auto, unfolding(crate::specs::Declarations::procedure_at))]
pub(crate) fn procedure<'a>(
    alloc: Global,
    limit: usize,
    depth: u32,
    tokens: &[Token<'a>],
    at: usize,
) -> Result<(Decl, usize), Refusal>
    ensures { Gives decl_of (λ j. views (drop j tokens.now)) result (procedure_at limit depth (views (drop at tokens.now))) }
{
    let (pos, after) = expect_kind(Kind::Procedure, tokens, at)?;
    let (attributes, after) = attributes(alloc, limit, depth, tokens, after)?;
    let (name, after) = name(alloc, tokens, after)?;
    let (signature, after) = signature(alloc, limit, depth, tokens, after)?;
    let ((specs, body), after) = tail(alloc, limit, depth, tokens, after)?;
    let made = Procedure {
        pos,
        attributes,
        name,
        signature,
        specs,
        body,
    };
    Ok((Decl::Procedure(made), after))
}

/// An implementation.
#[tactic(auto, unfolding(crate::specs::Declarations::implementation_at))]
pub(crate) fn implementation<'a>(
    alloc: Global,
    limit: usize,
    depth: u32,
    tokens: &[Token<'a>],
    at: usize,
) -> Result<(Decl, usize), Refusal>
    ensures { Gives decl_of (λ j. views (drop j tokens.now)) result (implementation_at limit depth (views (drop at tokens.now))) }
{
    let (pos, after) = expect_kind(Kind::Implementation, tokens, at)?;
    let (attributes, after) = attributes(alloc, limit, depth, tokens, after)?;
    let (name, after) = name(alloc, tokens, after)?;
    let (signature, after) = signature(alloc, limit, depth, tokens, after)?;
    let (body, after) = body(alloc, limit, depth, tokens, after)?;
    let made = Implementation {
        pos,
        attributes,
        name,
        signature,
        body,
    };
    Ok((Decl::Implementation(made), after))
}
