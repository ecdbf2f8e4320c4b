//! Statements and blocks.
ghost use Rattle.std.specs.Prelude.{◌≡◌, ◌∷◌, map, drop, IfOk, IfErr, Some, None};
ghost use Rattle.bg_text.specs.declared.token.Kind.TheVariants as kinds;
ghost use Rattle.bg_text.specs.Tokens.{view, views};
ghost use Rattle.bg_text.specs.Trees.{While};
ghost use Rattle.bg_text.specs.Views.{guard_of, clause_of, arm_view, st_of, sts_in, option_of};
ghost use Rattle.bg_reader.specs.Reading.{Gives};
ghost use Rattle.bg_grammar.specs.Rules.{a_kind, rows, below, room};
ghost use Rattle.bg_stmts.specs.Statements.{block_at, arm_at, if_by, elses_at, if_at, invariants_at, while_at, stmt_kinds, stmt_at, stmts_at, stmts_in};

use crate::simple::{guard, simple};
use bg_base::Pos;
use bg_grammar::{after_one_of, below};
use bg_parts::invariants;
use bg_reader::{Refusal, after_kind, expect_kind};
use bg_text::{Kind, Token, TreeArm, TreeClause, TreeGuard, TreeStmt};
use std::alloc::Global;

fn first_arm(first: TreeArm, rest: Vec<TreeArm>) -> Result<Vec<TreeArm>, Refusal>
    ensures ok { IfOk result (λ made. made.items ≡ first ∷ rest.items) }
    ensures err { IfErr result (λ x. x ≡ Refusal.Memory) }
{
    let mut made = rest;
    made.insert(0, first)?;
    Ok(made)
}

fn only_if(pos: Pos, arms: Vec<TreeArm>) -> TreeStmt
    ensures { st_of result ≡ if_by pos (map arm_view arms.items) None }
{
    TreeStmt::If(pos, arms)
}

fn with_else(pos: Pos, arms: Vec<TreeArm>, block: Vec<TreeStmt>) -> TreeStmt
    ensures { st_of result ≡ if_by pos (map arm_view arms.items) (Some (sts_in block.items)) }
{
    TreeStmt::IfElse(pos, arms, block)
}

fn branched(pos: Pos, arms: Vec<TreeArm>, last: Option<Vec<TreeStmt>>) -> TreeStmt
    ensures { st_of result ≡ if_by pos (map arm_view arms.items) (option_of (λ ss. sts_in ss.items) last) }
{
    match last {
        None => only_if(pos, arms),
        Some(block) => with_else(pos, arms, block),
    }
}

fn looped(pos: Pos, guard: TreeGuard, invariants: Vec<TreeClause>, block: Vec<TreeStmt>) -> TreeStmt
    ensures { st_of result ≡ While pos (guard_of guard) (map clause_of invariants.items) (sts_in block.items) }
{
    TreeStmt::While(pos, guard, invariants, block)
}

/// A block.
#[cycle(stmts)]
#[tactic(auto, unfolding(crate::specs::Statements::block_at))]
fn block<'a>(
    alloc: Global,
    limit: usize,
    depth: u32,
    tokens: &[Token<'a>],
    at: usize,
) -> Result<(Vec<TreeStmt>, usize), Refusal>
    ensures { Gives (λ v. sts_in v.items) (λ j. views (drop j tokens.now)) result (block_at (room (stmts_in limit) (below depth)) (views (drop at tokens.now))) }
{
    let (_, after) = expect_kind(Kind::OpenBrace, tokens, at)?;
    let Some(deeper) = below(depth) else {
        return Err(Refusal::TooDeep(at));
    };
    let (made, after) = stmts(alloc, limit, deeper, tokens, after)?;
    let (_, after) = expect_kind(Kind::CloseBrace, tokens, after)?;
    Ok((made, after))
}

/// A guard and its block.
#[cycle(stmts)]
#[tactic(auto, unfolding(crate::specs::Statements::arm_at))]
fn arm<'a>(
    alloc: Global,
    limit: usize,
    depth: u32,
    tokens: &[Token<'a>],
    at: usize,
) -> Result<(TreeArm, usize), Refusal>
    ensures { Gives arm_view (λ j. views (drop j tokens.now)) result (arm_at limit depth (room (stmts_in limit) (below depth)) (views (drop at tokens.now))) }
{
    let (guard, after) = guard(alloc, limit, depth, tokens, at)?;
    let (block, after) = block(alloc, limit, depth, tokens, after)?;
    Ok((TreeArm { guard, block }, after))
}

/// The arms behind the first, and the last block.
#[cycle(stmts)]
#[tactic(auto, unfolding(crate::specs::Statements::elses_at))]
fn elses<'a>(
    alloc: Global,
    limit: usize,
    depth: u32,
    tokens: &[Token<'a>],
    at: usize,
) -> Result<((Vec<TreeArm>, Option<Vec<TreeStmt>>), usize), Refusal>
    ensures { Gives (λ v. (map arm_view v.0.items, option_of (λ ss. sts_in ss.items) v.1)) (λ j. views (drop j tokens.now)) result (elses_at limit depth (room (stmts_in limit) (below depth)) (views (drop at tokens.now))) }
{
    let mut made = Vec::new(alloc);
    let mut rest = at;
    for _ in 0..limit {
        let Some((_, behind)) = after_kind(Kind::Else, tokens, rest) else {
            return Ok(((made, None), rest));
        };
        let Some((_, guarded)) = after_kind(Kind::If, tokens, behind) else {
            let (last, end) = block(alloc, limit, depth, tokens, behind)?;
            return Ok(((made, Some(last)), end));
        };
        let (next, end) = arm(alloc, limit, depth, tokens, guarded)?;
        made.push(next)?;
        rest = end;
    }
    Err(Refusal::Memory)
}

/// `if` with its arms.
#[cycle(stmts)]
#[tactic(auto, unfolding(crate::specs::Statements::if_at))]
fn if_stmt<'a>(
    alloc: Global,
    limit: usize,
    depth: u32,
    tokens: &[Token<'a>],
    at: usize,
) -> Result<(TreeStmt, usize), Refusal>
    ensures { Gives st_of (λ j. views (drop j tokens.now)) result (if_at limit depth (room (stmts_in limit) (below depth)) (views (drop at tokens.now))) }
{
    let (pos, after) = expect_kind(Kind::If, tokens, at)?;
    let (first, after) = arm(alloc, limit, depth, tokens, after)?;
    let ((rest, last), after) = elses(alloc, limit, depth, tokens, after)?;
    Ok((branched(pos, first_arm(first, rest)?, last), after))
}

/// `while` with its invariants.
#[cycle(stmts)]
#[tactic(auto, unfolding(crate::specs::Statements::while_at, crate::specs::Statements::invariants_at))]
fn while_stmt<'a>(
    alloc: Global,
    limit: usize,
    depth: u32,
    tokens: &[Token<'a>],
    at: usize,
) -> Result<(TreeStmt, usize), Refusal>
    ensures { Gives st_of (λ j. views (drop j tokens.now)) result (while_at limit depth (room (stmts_in limit) (below depth)) (views (drop at tokens.now))) }
{
    let (pos, after) = expect_kind(Kind::While, tokens, at)?;
    let (guard, after) = guard(alloc, limit, depth, tokens, after)?;
    let (invariants, after) = invariants(alloc, limit, depth, tokens, after)?;
    let (block, after) = block(alloc, limit, depth, tokens, after)?;
    Ok((looped(pos, guard, invariants, block), after))
}

/// A statement.
#[cycle(stmts)]
#[tactic(auto, unfolding(crate::specs::Statements::stmt_at))]
fn stmt<'a>(
    alloc: Global,
    limit: usize,
    depth: u32,
    tokens: &[Token<'a>],
    at: usize,
) -> Result<(TreeStmt, usize), Refusal>
    ensures { Gives st_of (λ j. views (drop j tokens.now)) result (stmt_at limit depth (room (stmts_in limit) (below depth)) (views (drop at tokens.now))) }
{
    if let Some(_) = after_kind(Kind::If, tokens, at) {
        return if_stmt(alloc, limit, depth, tokens, at);
    }
    if let Some(_) = after_kind(Kind::While, tokens, at) {
        return while_stmt(alloc, limit, depth, tokens, at);
    }
    simple(alloc, limit, depth, tokens, at)
}

/// Statements in a row.
#[cycle(stmts)]
fn statements<'a>(
    alloc: Global,
    limit: usize,
    depth: u32,
    tokens: &[Token<'a>],
    at: usize,
) -> Result<(Vec<TreeStmt>, usize), Refusal>
    ensures { Gives (λ v. map st_of v.items) (λ j. views (drop j tokens.now)) result (rows (a_kind stmt_kinds) (stmt_at limit depth (room (stmts_in limit) (below depth))) limit (views (drop at tokens.now))) }
{
    let mut made = Vec::new(alloc);
    let mut rest = at;
    for _ in 0..limit {
        let Some(_) = after_one_of(
            &[
                Kind::Assert,
                Kind::Assume,
                Kind::Havoc,
                Kind::Call,
                Kind::If,
                Kind::While,
                Kind::Break,
                Kind::Goto,
                Kind::Return,
                Kind::Name,
            ],
            tokens,
            rest,
        ) else {
            return Ok((made, rest));
        };
        let (next, after) = stmt(alloc, limit, depth, tokens, rest)?;
        made.push(next)?;
        rest = after;
    }
    Err(Refusal::Memory)
}

/// Statements in a row, as one list.
#[cycle(stmts)]
#[tactic(auto, unfolding(crate::specs::Statements::stmts_at))]
fn stmts_whole<'a>(
    alloc: Global,
    limit: usize,
    depth: u32,
    tokens: &[Token<'a>],
    at: usize,
) -> Result<(Vec<TreeStmt>, usize), Refusal>
    ensures { Gives (λ v. sts_in v.items) (λ j. views (drop j tokens.now)) result (stmts_at limit depth (room (stmts_in limit) (below depth)) (views (drop at tokens.now))) }
{
    statements(alloc, limit, depth, tokens, at)
}

/// The statements of a block.
#[cycle(stmts)]
pub fn stmts<'a>(
    alloc: Global,
    limit: usize,
    depth: u32,
    tokens: &[Token<'a>],
    at: usize,
) -> Result<(Vec<TreeStmt>, usize), Refusal>
    ensures { Gives (λ v. sts_in v.items) (λ j. views (drop j tokens.now)) result (stmts_in limit depth (views (drop at tokens.now))) }
{
    stmts_whole(alloc, limit, depth, tokens, at)
}
