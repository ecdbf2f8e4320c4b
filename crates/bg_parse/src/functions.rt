//! Functions.
ghost use Rattle.std.specs.Prelude.{◌≡◌, ◌∷◌, [], map, drop, IfOk, IfErr, Some, None};
ghost use Rattle.bg_text.specs.declared.token.Kind.TheVariants as kinds;
ghost use Rattle.bg_text.specs.Tokens.{view, views};
ghost use Rattle.bg_text.specs.Views.{id_of, ex_of, type_of, option_of, fun_arg_of, fun_result_of, decl_of};
ghost use Rattle.bg_reader.specs.Reading.{Gives};
ghost use Rattle.bg_grammar.specs.Rules.{commas_at, inside, room, below};
ghost use Rattle.bg_parse.specs.Declarations.{fun_arg_at, fun_args_in, fun_args_at, fun_result_at, fun_end_at, function_at};

use bg_expr::read_expr;
use bg_grammar::below;
use bg_parts::{attributes, name, named, ty, unnamed};
use bg_reader::{Refusal, after_kind, after_text, expect_kind};
use bg_text::{Decl, Function, FunctionArg, FunctionResult, Kind, Token, TreeExpr, TreeType};
use std::alloc::Global;

/// An argument or the result of a function.
#[tactic(auto, unfolding(crate::specs::Declarations::fun_arg_at))]
fn argument<'a>(
    alloc: Global,
    limit: usize,
    depth: u32,
    tokens: &[Token<'a>],
    at: usize,
) -> Result<(FunctionArg, usize), Refusal>
    ensures { Gives fun_arg_of (λ j. views (drop j tokens.now)) result (fun_arg_at limit depth (views (drop at tokens.now))) }
{
    let Some(((pos, text), after)) = after_text(Kind::Name, tokens, at) else {
        let (ty, after) = unnamed(alloc, limit, depth, tokens, at)?;
        return Ok((FunctionArg { name: None, ty }, after));
    };
    let name = named(alloc, pos, text)?;
    let Some((_, behind)) = after_kind(Kind::Colon, tokens, after) else {
        let ty = TreeType::Named(name);
        return Ok((FunctionArg { name: None, ty }, after));
    };
    let (ty, behind) = ty(alloc, limit, depth, tokens, behind)?;
    let name = Some(name);
    Ok((FunctionArg { name, ty }, behind))
}

/// Arguments with commas between them.
fn arguments<'a>(
    alloc: Global,
    limit: usize,
    depth: u32,
    tokens: &[Token<'a>],
    at: usize,
) -> Result<(Vec<FunctionArg>, usize), Refusal>
    ensures { Gives (λ v. map fun_arg_of v.items) (λ j. views (drop j tokens.now)) result (commas_at (fun_arg_at limit depth) limit (views (drop at tokens.now))) }
{
    let mut made = Vec::new(alloc);
    let (first, after) = argument(alloc, limit, depth, tokens, at)?;
    made.push(first)?;
    let mut rest = after;
    for _ in 0..limit {
        let Some((_, behind)) = after_kind(Kind::Comma, tokens, rest) else {
            return Ok((made, rest));
        };
        let (next, behind) = argument(alloc, limit, depth, tokens, behind)?;
        made.push(next)?;
        rest = behind;
    }
    Err(Refusal::Memory)
}

/// Arguments or none, and the closing parenthesis.
#[tactic(auto, unfolding(crate::specs::Declarations::fun_args_in))]
fn closed_arguments<'a>(
    alloc: Global,
    limit: usize,
    depth: u32,
    tokens: &[Token<'a>],
    at: usize,
) -> Result<(Vec<FunctionArg>, usize), Refusal>
    ensures { Gives (λ v. map fun_arg_of v.items) (λ j. views (drop j tokens.now)) result (fun_args_in limit depth (views (drop at tokens.now))) }
{
    if let Some((_, after)) = after_kind(Kind::Close, tokens, at) {
        return Ok((Vec::new(alloc), after));
    }
    let (made, after) = arguments(alloc, limit, depth, tokens, at)?;
    let (_, after) = expect_kind(Kind::Close, tokens, after)?;
    Ok((made, after))
}

/// Arguments in their parentheses.
#[tactic(auto, unfolding(crate::specs::Declarations::fun_args_at))]
fn all_arguments<'a>(
    alloc: Global,
    limit: usize,
    depth: u32,
    tokens: &[Token<'a>],
    at: usize,
) -> Result<(Vec<FunctionArg>, usize), Refusal>
    ensures { Gives (λ v. map fun_arg_of v.items) (λ j. views (drop j tokens.now)) result (fun_args_at limit depth (views (drop at tokens.now))) }
{
    let (_, after) = expect_kind(Kind::Open, tokens, at)?;
    let Some(deeper) = below(depth) else {
        return Err(Refusal::TooDeep(at));
    };
    closed_arguments(alloc, limit, deeper, tokens, after)
}

/// A result in parentheses.
fn enclosed_result<'a>(
    alloc: Global,
    limit: usize,
    depth: u32,
    tokens: &[Token<'a>],
    at: usize,
) -> Result<(FunctionArg, usize), Refusal>
    ensures { Gives fun_arg_of (λ j. views (drop j tokens.now)) result (inside kinds.Open kinds.Close (room (fun_arg_at limit) (below depth)) (views (drop at tokens.now))) }
{
    let (_, after) = expect_kind(Kind::Open, tokens, at)?;
    let Some(deeper) = below(depth) else {
        return Err(Refusal::TooDeep(at));
    };
    let (made, after) = argument(alloc, limit, deeper, tokens, after)?;
    let (_, after) = expect_kind(Kind::Close, tokens, after)?;
    Ok((made, after))
}

/// The result of a function.
#[tactic(auto, unfolding(crate::specs::Declarations::fun_result_at))]
fn function_result<'a>(
    alloc: Global,
    limit: usize,
    depth: u32,
    tokens: &[Token<'a>],
    at: usize,
) -> Result<(FunctionResult, usize), Refusal>
    ensures { Gives fun_result_of (λ j. views (drop j tokens.now)) result (fun_result_at limit depth (views (drop at tokens.now))) }
{
    if let Some((_, after)) = after_kind(Kind::Returns, tokens, at) {
        let (made, after) = enclosed_result(alloc, limit, depth, tokens, after)?;
        return Ok((FunctionResult::Returns(made), after));
    }
    let (_, after) = expect_kind(Kind::Colon, tokens, at)?;
    let (ty, after) = ty(alloc, limit, depth, tokens, after)?;
    Ok((FunctionResult::Colon(ty), after))
}

/// The body of a function, or a semicolon.
#[tactic(auto, unfolding(crate::specs::Declarations::fun_end_at))]
fn function_end<'a>(
    alloc: Global,
    limit: usize,
    depth: u32,
    tokens: &[Token<'a>],
    at: usize,
) -> Result<(Option<TreeExpr>, usize), Refusal>
    ensures { Gives (λ o. option_of ex_of o) (λ j. views (drop j tokens.now)) result (fun_end_at limit depth (views (drop at tokens.now))) }
{
    if let Some((_, after)) = after_kind(Kind::Semicolon, tokens, at) {
        return Ok((None, after));
    }
    let (_, after) = expect_kind(Kind::OpenBrace, tokens, at)?;
    let Some(deeper) = below(depth) else {
        return Err(Refusal::TooDeep(at));
    };
    let (e, after) = read_expr(alloc, limit, deeper, tokens, after)?;
    let (_, after) = expect_kind(Kind::CloseBrace, tokens, after)?;
    Ok((Some(e), after))
}

/// A function.
#[tactic(auto, unfolding(crate::specs::Declarations::function_at))]
pub(crate) fn function<'a>(
    alloc: Global,
    limit: usize,
    depth: u32,
    tokens: &[Token<'a>],
    at: usize,
) -> Result<(Decl, usize), Refusal>
    ensures { Gives decl_of (λ j. views (drop j tokens.now)) result (function_at limit depth (views (drop at tokens.now))) }
{
    let (pos, after) = expect_kind(Kind::Function, tokens, at)?;
    let (attributes, after) = attributes(alloc, limit, depth, tokens, after)?;
    let (name, after) = name(alloc, tokens, after)?;
    let (args, after) = all_arguments(alloc, limit, depth, tokens, after)?;
    let (result, after) = function_result(alloc, limit, depth, tokens, after)?;
    let (body, after) = function_end(alloc, limit, depth, tokens, after)?;
    let made = Function {
        pos,
        attributes,
        name,
        args,
        result,
        body,
    };
    Ok((Decl::Function(made), after))
}
