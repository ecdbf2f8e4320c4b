//! Expressions.
ghost use Rattle.std.specs.Prelude.{◌≡◌, ◌≤◌, ◌-◌, map, drop, IfOk, IfErr};
ghost use Rattle.bg_text.specs.Tokens.{view, views};
ghost use Rattle.bg_reader.specs.Reading.{Gives, a_sign, many, nothing, joined};
ghost use Rattle.bg_expr.specs.Exprs.{links_at, ladder, chain_of, prefix_of, postfix_of, inner_of, list_at, args_at, bracket_at, brackets_at, atom_at, postfix_at, prefix_at, a_prefix, next_sign, operand, expr_at, call_at, closed};
ghost use Rattle.bg_text.specs.Views.{link_view, bracket_view, links_of, brackets_of, ex_of, exs_of};

use crate::sign::{after_first_sign, after_next_sign, after_prefix, plain};
use bg_base::Pos;
use bg_reader::{Refusal, after_kind, after_text, expect_kind};
use bg_text::{InfixSign, Kind, Name, Token, TreeBracket, TreeExpr, TreeLink, TreePrefix};
use std::alloc::Global;

/// The prefix signs in a row.
pub(crate) fn prefixes<'a>(
    alloc: Global,
    limit: usize,
    tokens: &[Token<'a>],
    at: usize,
) -> Result<(Vec<TreePrefix>, usize), Refusal>
    ensures { Gives (λ v. v.items) (λ j. views (drop j tokens.now)) result (many a_prefix nothing limit (views (drop at tokens.now))) }
{
    let mut made = Vec::new(alloc);
    let mut rest = at;
    for _ in 0..limit {
        match after_prefix(tokens, rest) {
            Some((sign, after)) => {
                made.push(sign)?;
                rest = after;
            }
            None => return Ok((made, rest)),
        }
    }
    match after_prefix(tokens, rest) {
        Some(_) => Err(Refusal::Memory),
        None => Ok((made, rest)),
    }
}

fn chained(alloc: Global, e: TreeExpr, links: Vec<TreeLink>) -> Result<TreeExpr, Refusal>
    ensures ok { IfOk result (λ made. ex_of made ≡ chain_of (ex_of e) (links_of (map link_view links.items))) }
    ensures err { IfErr result (λ x. x ≡ Refusal.Memory) }
{
    if links.is_empty() {
        Ok(e)
    } else {
        Ok(TreeExpr::Chain(Box::new(alloc, e)?, links))
    }
}

fn marked(alloc: Global, e: TreeExpr, brackets: Vec<TreeBracket>) -> Result<TreeExpr, Refusal>
    ensures ok { IfOk result (λ made. ex_of made ≡ postfix_of (ex_of e) (brackets_of (map bracket_view brackets.items))) }
    ensures err { IfErr result (λ x. x ≡ Refusal.Memory) }
{
    if brackets.is_empty() {
        Ok(e)
    } else {
        Ok(TreeExpr::Postfix(Box::new(alloc, e)?, brackets))
    }
}

fn signed(alloc: Global, signs: Vec<TreePrefix>, e: TreeExpr) -> Result<TreeExpr, Refusal>
    ensures ok { IfOk result (λ made. ex_of made ≡ prefix_of signs.items (ex_of e)) }
    ensures err { IfErr result (λ x. x ≡ Refusal.Memory) }
{
    if signs.is_empty() {
        Ok(e)
    } else {
        Ok(TreeExpr::Prefix(signs, Box::new(alloc, e)?))
    }
}

fn named(alloc: Global, pos: Pos, text: &[u8]) -> Result<Name, Refusal>
    ensures ok { IfOk result (λ made. (made.pos ≡ pos) × (made.text.items ≡ text.now)) }
    ensures err { IfErr result (λ x. x ≡ Refusal.Memory) }
{
    let text = text.to_vec(alloc)?;
    Ok(Name { pos, text })
}

/// What the operands of a chain are read with: how many parts a list may have behind its first, how many brackets may still
/// be opened, and how many levels bind tighter.
#[derive(Clone, Copy)]
struct Level {
    limit: usize,
    depth: u32,
    rungs: u32,
}

/// The operands behind the first, from the second link on.
#[cycle(expr)]
fn more_links<'a>(
    alloc: Global,
    level: Level,
    made: Vec<TreeLink>,
    first: InfixSign,
    tokens: &[Token<'a>],
    at: usize,
) -> Result<(Vec<TreeLink>, usize), Refusal>
    requires { level.rungs ≤ 6 }
    ensures { Gives (λ v. map link_view v.items) (λ j. views (drop j tokens.now)) result (joined (map link_view made.items) (many (next_sign first) (operand (ladder level.limit (inner_of level.limit level.depth) level.rungs)) level.limit (views (drop at tokens.now)))) }
{
    let mut made = made;
    let mut rest = at;
    for _ in 0..level.limit {
        let Some(((pos, sign), after)) = after_next_sign(first, tokens, rest) else {
            return Ok((made, rest));
        };
        let (operand, after) = ladder(alloc, level.limit, level.depth, level.rungs, tokens, after)?;
        made.push(TreeLink { pos, sign, operand })?;
        rest = after;
    }
    match after_next_sign(first, tokens, rest) {
        Some(_) => Err(Refusal::Memory),
        None => Ok((made, rest)),
    }
}

/// The operands behind the first.
#[cycle(expr)]
fn links<'a>(
    alloc: Global,
    limit: usize,
    depth: u32,
    rungs: u32,
    tokens: &[Token<'a>],
    at: usize,
) -> Result<(Vec<TreeLink>, usize), Refusal>
    requires { rungs ≤ 5 }
    ensures { Gives (λ v. links_of (map link_view v.items)) (λ j. views (drop j tokens.now)) result (links_at limit (5 - rungs) (ladder limit (inner_of limit depth) rungs) (views (drop at tokens.now))) }
{
    let mut made = Vec::new(alloc);
    let Some(((pos, sign), after)) = after_first_sign(5 - rungs, tokens, at) else {
        return Ok((made, at));
    };
    let (operand, after) = ladder(alloc, limit, depth, rungs, tokens, after)?;
    made.push(TreeLink { pos, sign, operand })?;
    let level = Level {
        limit,
        depth,
        rungs,
    };
    more_links(alloc, level, made, sign, tokens, after)
}

/// The chains of the levels that bind least first.
#[cycle(expr)]
pub(crate) fn ladder<'a>(
    alloc: Global,
    limit: usize,
    depth: u32,
    rungs: u32,
    tokens: &[Token<'a>],
    at: usize,
) -> Result<(TreeExpr, usize), Refusal>
    requires { rungs ≤ 6 }
    ensures { Gives ex_of (λ j. views (drop j tokens.now)) result (ladder limit (inner_of limit depth) rungs (views (drop at tokens.now))) }
{
    if rungs == 0 {
        return prefixed(alloc, limit, depth, tokens, at);
    }
    let (e, after) = ladder(alloc, limit, depth, rungs - 1, tokens, at)?;
    let (links, after) = links(alloc, limit, depth, rungs - 1, tokens, after)?;
    Ok((chained(alloc, e, links)?, after))
}

/// Prefix signs, an atom and the brackets behind it.
#[cycle(expr)]
#[tactic(auto, unfolding(crate::specs::Exprs::prefix_at, crate::specs::Exprs::postfix_at))]
fn prefixed<'a>(
    alloc: Global,
    limit: usize,
    depth: u32,
    tokens: &[Token<'a>],
    at: usize,
) -> Result<(TreeExpr, usize), Refusal>
    ensures { Gives ex_of (λ j. views (drop j tokens.now)) result (prefix_at limit (inner_of limit depth) (views (drop at tokens.now))) }
{
    let (signs, after) = prefixes(alloc, limit, tokens, at)?;
    let (e, after) = atom(alloc, limit, depth, tokens, after)?;
    let (brackets, after) = brackets(alloc, limit, depth, tokens, after)?;
    let e = marked(alloc, e, brackets)?;
    Ok((signed(alloc, signs, e)?, after))
}

/// The brackets in a row.
#[cycle(expr)]
fn brackets<'a>(
    alloc: Global,
    limit: usize,
    depth: u32,
    tokens: &[Token<'a>],
    at: usize,
) -> Result<(Vec<TreeBracket>, usize), Refusal>
    ensures { Gives (λ v. brackets_of (map bracket_view v.items)) (λ j. views (drop j tokens.now)) result (brackets_at limit (inner_of limit depth) (views (drop at tokens.now))) }
{
    let mut made = Vec::new(alloc);
    let mut rest = at;
    if depth == 0 {
        return match after_kind(Kind::OpenBracket, tokens, at) {
            Some(_) => Err(Refusal::TooDeep(at)),
            None => Ok((made, at)),
        };
    }
    for _ in 0..limit {
        let Some((pos, after)) = after_kind(Kind::OpenBracket, tokens, rest) else {
            return Ok((made, rest));
        };
        let (bracket, after) = bracket(alloc, limit, depth - 1, pos, tokens, after)?;
        made.push(bracket)?;
        rest = after;
    }
    match after_kind(Kind::OpenBracket, tokens, rest) {
        Some(_) => Err(Refusal::Memory),
        None => Ok((made, rest)),
    }
}

/// What stands behind an opening bracket, up to the closing one.
#[cycle(expr)]
#[tactic(auto, unfolding(crate::specs::Exprs::bracket_at))]
fn bracket<'a>(
    alloc: Global,
    limit: usize,
    depth: u32,
    pos: Pos,
    tokens: &[Token<'a>],
    at: usize,
) -> Result<(TreeBracket, usize), Refusal>
    ensures { Gives bracket_view (λ j. views (drop j tokens.now)) result (bracket_at limit (expr_at limit depth) pos (views (drop at tokens.now))) }
{
    let (indices, after) = list(alloc, limit, depth, tokens, at)?;
    match after_kind(Kind::Becomes, tokens, after) {
        Some((_, after)) => {
            let (value, after) = ladder(alloc, limit, depth, 6, tokens, after)?;
            let (_, after) = expect_kind(Kind::CloseBracket, tokens, after)?;
            Ok((TreeBracket::Update(pos, indices, value), after))
        }
        None => {
            let (_, after) = expect_kind(Kind::CloseBracket, tokens, after)?;
            Ok((TreeBracket::Select(pos, indices), after))
        }
    }
}

/// The expressions behind the first, each with a comma before it.
#[cycle(expr)]
fn more_exprs<'a>(
    alloc: Global,
    limit: usize,
    depth: u32,
    made: Vec<TreeExpr>,
    tokens: &[Token<'a>],
    at: usize,
) -> Result<(Vec<TreeExpr>, usize), Refusal>
    ensures { Gives (λ v. map ex_of v.items) (λ j. views (drop j tokens.now)) result (joined (map ex_of made.items) (many (a_sign Kind.Comma) (λ _. expr_at limit depth) limit (views (drop at tokens.now)))) }
{
    let mut made = made;
    let mut rest = at;
    for _ in 0..limit {
        let Some((_, after)) = after_kind(Kind::Comma, tokens, rest) else {
            return Ok((made, rest));
        };
        let (e, after) = ladder(alloc, limit, depth, 6, tokens, after)?;
        made.push(e)?;
        rest = after;
    }
    match after_kind(Kind::Comma, tokens, rest) {
        Some(_) => Err(Refusal::Memory),
        None => Ok((made, rest)),
    }
}

/// Expressions with commas between them.
#[cycle(expr)]
#[tactic(auto, unfolding(crate::specs::Exprs::list_at))]
fn list<'a>(
    alloc: Global,
    limit: usize,
    depth: u32,
    tokens: &[Token<'a>],
    at: usize,
) -> Result<(Vec<TreeExpr>, usize), Refusal>
    ensures { Gives (λ v. exs_of (map ex_of v.items)) (λ j. views (drop j tokens.now)) result (list_at limit (expr_at limit depth) (views (drop at tokens.now))) }
{
    let (first, after) = ladder(alloc, limit, depth, 6, tokens, at)?;
    let mut made = Vec::new(alloc);
    made.push(first)?;
    more_exprs(alloc, limit, depth, made, tokens, after)
}

/// The arguments of a call, up to the closing bracket.
#[cycle(expr)]
#[tactic(auto, unfolding(crate::specs::Exprs::args_at))]
fn args<'a>(
    alloc: Global,
    limit: usize,
    depth: u32,
    tokens: &[Token<'a>],
    at: usize,
) -> Result<(Vec<TreeExpr>, usize), Refusal>
    ensures { Gives (λ v. exs_of (map ex_of v.items)) (λ j. views (drop j tokens.now)) result (args_at limit (expr_at limit depth) (views (drop at tokens.now))) }
{
    match after_kind(Kind::Close, tokens, at) {
        Some((_, after)) => Ok((Vec::new(alloc), after)),
        None => {
            let (made, after) = list(alloc, limit, depth, tokens, at)?;
            let (_, after) = expect_kind(Kind::Close, tokens, after)?;
            Ok((made, after))
        }
    }
}

/// A name, and the arguments of a call.
#[cycle(expr)]
fn call<'a>(
    alloc: Global,
    limit: usize,
    depth: u32,
    name: (Pos, &[u8]),
    tokens: &[Token<'a>],
    at: usize,
) -> Result<(TreeExpr, usize), Refusal>
    ensures { Gives ex_of (λ j. views (drop j tokens.now)) result (call_at limit (inner_of limit depth) (name.entry.0, name.entry.1.now) (views (drop at tokens.now))) }
{
    let name = named(alloc, name.0, name.1)?;
    match after_kind(Kind::Open, tokens, at) {
        None => Ok((TreeExpr::Named(name), at)),
        Some((_, after)) => {
            if depth == 0 {
                return Err(Refusal::TooDeep(at));
            }
            let (args, after) = args(alloc, limit, depth - 1, tokens, after)?;
            Ok((TreeExpr::Apply(name, args), after))
        }
    }
}

/// An expression and the closing sign behind it.
#[cycle(expr)]
fn inside<'a>(
    alloc: Global,
    limit: usize,
    depth: u32,
    tokens: &[Token<'a>],
    at: usize,
) -> Result<(Box<TreeExpr>, usize), Refusal>
    ensures { Gives (λ e. ex_of e.value) (λ j. views (drop j tokens.now)) result (closed (expr_at limit depth) (views (drop at tokens.now))) }
{
    let (e, after) = ladder(alloc, limit, depth, 6, tokens, at)?;
    let (_, after) = expect_kind(Kind::Close, tokens, after)?;
    Ok((Box::new(alloc, e)?, after))
}

/// An atom.
#[cycle(expr)]
#[tactic(auto, unfolding(crate::specs::Exprs::atom_at))]
fn atom<'a>(
    alloc: Global,
    limit: usize,
    depth: u32,
    tokens: &[Token<'a>],
    at: usize,
) -> Result<(TreeExpr, usize), Refusal>
    ensures { Gives ex_of (λ j. views (drop j tokens.now)) result (atom_at limit (inner_of limit depth) (views (drop at tokens.now))) }
{
    if let Some((name, after)) = after_text(Kind::Name, tokens, at) {
        return call(alloc, limit, depth, name, tokens, after);
    }
    if let Some((pos, after)) = after_kind(Kind::Old, tokens, at) {
        return match after_kind(Kind::Open, tokens, after) {
            None => Err(Refusal::Syntax(after)),
            Some((_, behind)) => {
                if depth == 0 {
                    return Err(Refusal::TooDeep(after));
                }
                let (e, behind) = inside(alloc, limit, depth - 1, tokens, behind)?;
                Ok((TreeExpr::Old(pos, e), behind))
            }
        };
    }
    match after_kind(Kind::Open, tokens, at) {
        None => plain(tokens, at),
        Some((open, behind)) => {
            if depth == 0 {
                return Err(Refusal::TooDeep(at));
            }
            let (e, behind) = inside(alloc, limit, depth - 1, tokens, behind)?;
            Ok((TreeExpr::Parens(open, e), behind))
        }
    }
}
