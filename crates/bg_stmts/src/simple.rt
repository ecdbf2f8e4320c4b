//! Statements without blocks.
ghost use Rattle.std.specs.Prelude.{◌≡◌, ◌∷◌, map, drop, IfOk, IfErr, Some};
ghost use Rattle.bg_text.specs.declared.token.Kind.TheVariants as kinds;
ghost use Rattle.bg_text.specs.Tokens.{view, views};
ghost use Rattle.bg_text.specs.Views.{id_of, exs_in, guard_of, clause_of, bracket_of, target_of, call_of, st_of, option_of, attr_of};
ghost use Rattle.bg_reader.specs.Reading.{Gives, with_read};
ghost use Rattle.bg_stmts.specs.Statements.{guard_in, guard_at, bracket_in, brackets_in, target_at, targets_at, assigned_at, named, named_at, called_at, more_ids, takes_at, call_by, call_at, havoc_at, goto_at, break_at, return_at, plain_at, simple_at};

use bg_base::Pos;
use bg_expr::read_expr;
use bg_grammar::below;
use bg_parts::{args, attributes, clause, exprs, name, names};
use bg_reader::{Refusal, after_kind, after_text, expect_kind};
use bg_text::{
    Attribute, Kind, Name, Token, TreeCall, TreeExpr, TreeGuard, TreeIndices, TreeStmt, TreeTarget,
};
use std::alloc::Global;

/// What stands in the parentheses of a guard.
#[tactic(auto, unfolding(crate::specs::Statements::guard_in))]
fn guard_inner<'a>(
    alloc: Global,
    limit: usize,
    depth: u32,
    tokens: &[Token<'a>],
    at: usize,
) -> Result<(TreeGuard, usize), Refusal>
    ensures { Gives guard_of (λ j. views (drop j tokens.now)) result (guard_in limit depth (views (drop at tokens.now))) }
{
    if let Some((pos, after)) = after_kind(Kind::Times, tokens, at) {
        return Ok((TreeGuard::Star(pos), after));
    }
    let (test, after) = read_expr(alloc, limit, depth, tokens, at)?;
    Ok((TreeGuard::Test(test), after))
}

/// A guard in its parentheses.
#[tactic(auto, unfolding(crate::specs::Statements::guard_at))]
pub(crate) fn guard<'a>(
    alloc: Global,
    limit: usize,
    depth: u32,
    tokens: &[Token<'a>],
    at: usize,
) -> Result<(TreeGuard, usize), Refusal>
    ensures { Gives guard_of (λ j. views (drop j tokens.now)) result (guard_at limit depth (views (drop at tokens.now))) }
{
    let (_, after) = expect_kind(Kind::Open, tokens, at)?;
    let Some(deeper) = below(depth) else {
        return Err(Refusal::TooDeep(at));
    };
    let (guard, after) = guard_inner(alloc, limit, deeper, tokens, after)?;
    let (_, after) = expect_kind(Kind::Close, tokens, after)?;
    Ok((guard, after))
}

/// Indices of a left side.
#[tactic(auto, unfolding(crate::specs::Statements::bracket_in))]
fn bracket<'a>(
    alloc: Global,
    limit: usize,
    depth: u32,
    tokens: &[Token<'a>],
    at: usize,
) -> Result<(TreeIndices, usize), Refusal>
    ensures { Gives bracket_of (λ j. views (drop j tokens.now)) result (bracket_in limit depth (views (drop at tokens.now))) }
{
    let (pos, after) = expect_kind(Kind::OpenBracket, tokens, at)?;
    let Some(deeper) = below(depth) else {
        return Err(Refusal::TooDeep(at));
    };
    let (indices, after) = exprs(alloc, limit, deeper, tokens, after)?;
    let (_, after) = expect_kind(Kind::CloseBracket, tokens, after)?;
    Ok((TreeIndices { pos, indices }, after))
}

/// Brackets in a row.
#[tactic(auto, unfolding(crate::specs::Statements::brackets_in))]
fn brackets<'a>(
    alloc: Global,
    limit: usize,
    depth: u32,
    tokens: &[Token<'a>],
    at: usize,
) -> Result<(Vec<TreeIndices>, usize), Refusal>
    ensures { Gives (λ v. map bracket_of v.items) (λ j. views (drop j tokens.now)) result (brackets_in limit depth (views (drop at tokens.now))) }
{
    let mut made = Vec::new(alloc);
    let mut rest = at;
    for _ in 0..limit {
        let Some(_) = after_kind(Kind::OpenBracket, tokens, rest) else {
            return Ok((made, rest));
        };
        let (next, after) = bracket(alloc, limit, depth, tokens, rest)?;
        made.push(next)?;
        rest = after;
    }
    Err(Refusal::Memory)
}

/// A left side.
#[tactic(auto, unfolding(crate::specs::Statements::target_at))]
fn target<'a>(
    alloc: Global,
    limit: usize,
    depth: u32,
    tokens: &[Token<'a>],
    at: usize,
) -> Result<(TreeTarget, usize), Refusal>
    ensures { Gives target_of (λ j. views (drop j tokens.now)) result (target_at limit depth (views (drop at tokens.now))) }
{
    let (name, after) = name(alloc, tokens, at)?;
    let (brackets, after) = brackets(alloc, limit, depth, tokens, after)?;
    Ok((TreeTarget { name, brackets }, after))
}

/// Left sides with a comma before each.
#[tactic(auto, unfolding(crate::specs::Statements::targets_at))]
fn more_targets<'a>(
    alloc: Global,
    limit: usize,
    depth: u32,
    tokens: &[Token<'a>],
    at: usize,
) -> Result<(Vec<TreeTarget>, usize), Refusal>
    ensures { Gives (λ v. map target_of v.items) (λ j. views (drop j tokens.now)) result (targets_at limit depth (views (drop at tokens.now))) }
{
    let mut made = Vec::new(alloc);
    let mut rest = at;
    for _ in 0..limit {
        let Some((_, behind)) = after_kind(Kind::Comma, tokens, rest) else {
            return Ok((made, rest));
        };
        let (next, behind) = target(alloc, limit, depth, tokens, behind)?;
        made.push(next)?;
        rest = behind;
    }
    Err(Refusal::Memory)
}

/// Names with a comma before each.
#[tactic(auto, unfolding(crate::specs::Statements::more_ids))]
fn more_names<'a>(
    alloc: Global,
    limit: usize,
    tokens: &[Token<'a>],
    at: usize,
) -> Result<(Vec<Name>, usize), Refusal>
    ensures { Gives (λ v. map id_of v.items) (λ j. views (drop j tokens.now)) result (more_ids limit (views (drop at tokens.now))) }
{
    let mut made = Vec::new(alloc);
    let mut rest = at;
    for _ in 0..limit {
        let Some((_, behind)) = after_kind(Kind::Comma, tokens, rest) else {
            return Ok((made, rest));
        };
        let (next, behind) = name(alloc, tokens, behind)?;
        made.push(next)?;
        rest = behind;
    }
    Err(Refusal::Memory)
}

fn first_target(first: TreeTarget, rest: Vec<TreeTarget>) -> Result<Vec<TreeTarget>, Refusal>
    ensures ok { IfOk result (λ made. made.items ≡ first ∷ rest.items) }
    ensures err { IfErr result (λ x. x ≡ Refusal.Memory) }
{
    let mut made = rest;
    made.insert(0, first)?;
    Ok(made)
}

fn first_name(first: Name, rest: Vec<Name>) -> Result<Vec<Name>, Refusal>
    ensures ok { IfOk result (λ made. made.items ≡ first ∷ rest.items) }
    ensures err { IfErr result (λ x. x ≡ Refusal.Memory) }
{
    let mut made = rest;
    made.insert(0, first)?;
    Ok(made)
}

/// An assignment behind its first name.
#[tactic(auto, unfolding(crate::specs::Statements::assigned_at))]
fn assigned<'a>(
    alloc: Global,
    limit: usize,
    depth: u32,
    first: Name,
    tokens: &[Token<'a>],
    at: usize,
) -> Result<(TreeStmt, usize), Refusal>
    ensures { Gives st_of (λ j. views (drop j tokens.now)) result (with_read (λ v. named (id_of first) (Some v)) (assigned_at limit depth (views (drop at tokens.now)))) }
{
    let (brackets, after) = brackets(alloc, limit, depth, tokens, at)?;
    let (rest, after) = more_targets(alloc, limit, depth, tokens, after)?;
    let (pos, after) = expect_kind(Kind::Becomes, tokens, after)?;
    let (values, after) = exprs(alloc, limit, depth, tokens, after)?;
    let (_, after) = expect_kind(Kind::Semicolon, tokens, after)?;
    let first = TreeTarget {
        name: first,
        brackets,
    };
    Ok((
        TreeStmt::Assign(pos, first_target(first, rest)?, values),
        after,
    ))
}

/// A label or an assignment.
#[tactic(auto, unfolding(crate::specs::Statements::named_at))]
fn labelled<'a>(
    alloc: Global,
    limit: usize,
    depth: u32,
    tokens: &[Token<'a>],
    at: usize,
) -> Result<(TreeStmt, usize), Refusal>
    ensures { Gives st_of (λ j. views (drop j tokens.now)) result (named_at limit depth (views (drop at tokens.now))) }
{
    let (first, after) = name(alloc, tokens, at)?;
    if let Some((_, after)) = after_kind(Kind::Colon, tokens, after) {
        return Ok((TreeStmt::Label(first), after));
    }
    assigned(alloc, limit, depth, first, tokens, after)
}

/// The arguments of a call in their parentheses, and the semicolon.
#[tactic(auto, unfolding(crate::specs::Statements::called_at))]
fn called<'a>(
    alloc: Global,
    limit: usize,
    depth: u32,
    tokens: &[Token<'a>],
    at: usize,
) -> Result<(Vec<TreeExpr>, usize), Refusal>
    ensures { Gives (λ v. exs_in v.items) (λ j. views (drop j tokens.now)) result (called_at limit depth (views (drop at tokens.now))) }
{
    let (_, after) = expect_kind(Kind::Open, tokens, at)?;
    let Some(deeper) = below(depth) else {
        return Err(Refusal::TooDeep(at));
    };
    let (made, after) = args(alloc, limit, deeper, tokens, after)?;
    let (_, after) = expect_kind(Kind::Semicolon, tokens, after)?;
    Ok((made, after))
}

/// A call behind its first name: the further names that take results, and the procedure, where the first name takes one too; and
/// the arguments.
#[tactic(auto, unfolding(crate::specs::Statements::takes_at))]
fn taking<'a>(
    alloc: Global,
    limit: usize,
    depth: u32,
    tokens: &[Token<'a>],
    at: usize,
) -> Result<((Option<(Vec<Name>, Name)>, Vec<TreeExpr>), usize), Refusal>
    ensures { Gives (λ v. (option_of (λ t. (map id_of t.0.items, id_of t.1)) v.0, exs_in v.1.items)) (λ j. views (drop j tokens.now)) result (takes_at limit depth (views (drop at tokens.now))) }
{
    if let Some(_) = after_kind(Kind::Open, tokens, at) {
        let (args, after) = called(alloc, limit, depth, tokens, at)?;
        return Ok(((None, args), after));
    }
    let (rest, after) = more_names(alloc, limit, tokens, at)?;
    let (_, after) = expect_kind(Kind::Becomes, tokens, after)?;
    let (procedure, after) = name(alloc, tokens, after)?;
    let (args, after) = called(alloc, limit, depth, tokens, after)?;
    Ok(((Some((rest, procedure)), args), after))
}

/// The call that stands behind these words.
fn call_by(
    alloc: Global,
    pos: Pos,
    attributes: Vec<Attribute>,
    first: Name,
    taken: Option<(Vec<Name>, Name)>,
    args: Vec<TreeExpr>,
) -> Result<TreeCall, Refusal>
    ensures ok { IfOk result (λ made. call_of made ≡ call_by pos (map attr_of attributes.items) (id_of first) (option_of (λ t. (map id_of t.0.items, id_of t.1)) taken) (exs_in args.items)) }
    ensures err { IfErr result (λ x. x ≡ Refusal.Memory) }
{
    match taken {
        None => Ok(TreeCall {
            pos,
            attributes,
            takes: Vec::new(alloc),
            procedure: first,
            args,
        }),
        Some((rest, procedure)) => {
            let takes = first_name(first, rest)?;
            Ok(TreeCall {
                pos,
                attributes,
                takes,
                procedure,
                args,
            })
        }
    }
}

/// A call.
#[tactic(auto, unfolding(crate::specs::Statements::call_at))]
fn call<'a>(
    alloc: Global,
    limit: usize,
    depth: u32,
    tokens: &[Token<'a>],
    at: usize,
) -> Result<(TreeCall, usize), Refusal>
    ensures { Gives call_of (λ j. views (drop j tokens.now)) result (call_at limit depth (views (drop at tokens.now))) }
{
    let (pos, after) = expect_kind(Kind::Call, tokens, at)?;
    let (attributes, after) = attributes(alloc, limit, depth, tokens, after)?;
    let (first, after) = name(alloc, tokens, after)?;
    let ((taken, args), after) = taking(alloc, limit, depth, tokens, after)?;
    let call = call_by(alloc, pos, attributes, first, taken, args)?;
    Ok((call, after))
}

/// `havoc` and its names.
#[tactic(auto, unfolding(crate::specs::Statements::havoc_at))]
fn havoc<'a>(
    alloc: Global,
    limit: usize,
    tokens: &[Token<'a>],
    at: usize,
) -> Result<(TreeStmt, usize), Refusal>
    ensures { Gives st_of (λ j. views (drop j tokens.now)) result (havoc_at limit (views (drop at tokens.now))) }
{
    let (pos, after) = expect_kind(Kind::Havoc, tokens, at)?;
    let (names, after) = names(alloc, limit, tokens, after)?;
    let (_, after) = expect_kind(Kind::Semicolon, tokens, after)?;
    Ok((TreeStmt::Havoc(pos, names), after))
}

/// `goto` and its labels.
#[tactic(auto, unfolding(crate::specs::Statements::goto_at))]
fn goto<'a>(
    alloc: Global,
    limit: usize,
    tokens: &[Token<'a>],
    at: usize,
) -> Result<(TreeStmt, usize), Refusal>
    ensures { Gives st_of (λ j. views (drop j tokens.now)) result (goto_at limit (views (drop at tokens.now))) }
{
    let (pos, after) = expect_kind(Kind::Goto, tokens, at)?;
    let (names, after) = names(alloc, limit, tokens, after)?;
    let (_, after) = expect_kind(Kind::Semicolon, tokens, after)?;
    Ok((TreeStmt::Goto(pos, names), after))
}

/// `break`, with a label or without.
#[tactic(auto, unfolding(crate::specs::Statements::break_at))]
fn leave<'a>(alloc: Global, tokens: &[Token<'a>], at: usize) -> Result<(TreeStmt, usize), Refusal>
    ensures { Gives st_of (λ j. views (drop j tokens.now)) result (break_at (views (drop at tokens.now))) }
{
    let (pos, after) = expect_kind(Kind::Break, tokens, at)?;
    if let Some(_) = after_text(Kind::Name, tokens, after) {
        let (label, after) = name(alloc, tokens, after)?;
        let (_, after) = expect_kind(Kind::Semicolon, tokens, after)?;
        return Ok((TreeStmt::Break(pos, Some(label)), after));
    }
    let (_, after) = expect_kind(Kind::Semicolon, tokens, after)?;
    Ok((TreeStmt::Break(pos, None), after))
}

/// `return`.
#[tactic(auto, unfolding(crate::specs::Statements::return_at))]
fn give_back<'a>(tokens: &[Token<'a>], at: usize) -> Result<(TreeStmt, usize), Refusal>
    ensures { Gives st_of (λ j. views (drop j tokens.now)) result (return_at (views (drop at tokens.now))) }
{
    let (pos, after) = expect_kind(Kind::Return, tokens, at)?;
    let (_, after) = expect_kind(Kind::Semicolon, tokens, after)?;
    Ok((TreeStmt::Return(pos), after))
}

/// A jump, a label or an assignment.
#[tactic(auto, unfolding(crate::specs::Statements::plain_at))]
fn jump<'a>(
    alloc: Global,
    limit: usize,
    depth: u32,
    tokens: &[Token<'a>],
    at: usize,
) -> Result<(TreeStmt, usize), Refusal>
    ensures { Gives st_of (λ j. views (drop j tokens.now)) result (plain_at limit depth (views (drop at tokens.now))) }
{
    if let Some(_) = after_kind(Kind::Break, tokens, at) {
        return leave(alloc, tokens, at);
    }
    if let Some(_) = after_kind(Kind::Goto, tokens, at) {
        return goto(alloc, limit, tokens, at);
    }
    if let Some(_) = after_kind(Kind::Return, tokens, at) {
        return give_back(tokens, at);
    }
    labelled(alloc, limit, depth, tokens, at)
}

/// A statement without blocks.
#[tactic(auto, unfolding(crate::specs::Statements::simple_at))]
pub(crate) fn simple<'a>(
    alloc: Global,
    limit: usize,
    depth: u32,
    tokens: &[Token<'a>],
    at: usize,
) -> Result<(TreeStmt, usize), Refusal>
    ensures { Gives st_of (λ j. views (drop j tokens.now)) result (simple_at limit depth (views (drop at tokens.now))) }
{
    if let Some(_) = after_kind(Kind::Assert, tokens, at) {
        let (clause, after) = clause(alloc, limit, depth, Kind::Assert, tokens, at)?;
        return Ok((TreeStmt::Assert(clause), after));
    }
    if let Some(_) = after_kind(Kind::Assume, tokens, at) {
        let (clause, after) = clause(alloc, limit, depth, Kind::Assume, tokens, at)?;
        return Ok((TreeStmt::Assume(clause), after));
    }
    if let Some(_) = after_kind(Kind::Havoc, tokens, at) {
        return havoc(alloc, limit, tokens, at);
    }
    if let Some(_) = after_kind(Kind::Call, tokens, at) {
        let (call, after) = call(alloc, limit, depth, tokens, at)?;
        return Ok((TreeStmt::Call(call), after));
    }
    jump(alloc, limit, depth, tokens, at)
}
