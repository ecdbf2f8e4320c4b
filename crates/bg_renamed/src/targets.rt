//! What a variable is assigned.
ghost use Rattle.std.specs.Prelude.{◌≡◌, map, IfOk};
ghost use Rattle.bg_ast.specs.Syntax.{Read, Update};
ghost use Rattle.bg_ast.specs.Meaning as m;
ghost use Rattle.bg_ast.specs.Views.{ex_of, var_of, bracket_view, target_of, bracket_of};
ghost use Rattle.bg_passive.specs.Incarnations.{rename, renames};
ghost use Rattle.bg_renamed.specs.Views.{env_of};
ghost use Rattle.bg_renamed.specs.Written.{selected, renamed_select};

use crate::env::{Env, read};
use crate::exprs::{exprs, renamed};
use bg_ast::resolved::{Bracket, Expr, Indices, Target};
use std::alloc::{AllocError, Global};

/// A bracket that selects.
fn select(alloc: Global, at: &Indices, env: &Env<'_>) -> Result<Bracket, AllocError>
    ensures { IfOk result (λ b. bracket_view b ≡ renamed_select (env_of env.now) (bracket_of at.now)) }
{
    let indices = exprs(alloc, &at.indices, env)?;
    Ok(Bracket::Select(at.pos, indices))
}

/// Brackets that select.
fn selects(alloc: Global, brackets: &[Indices], env: &Env<'_>) -> Result<Vec<Bracket>, AllocError>
    ensures { IfOk result (λ made. map bracket_view made.items ≡ map (renamed_select (env_of env.now)) (map bracket_of brackets.now)) }
{
    let mut made = Vec::new(alloc);
    for b in brackets {
        let b = select(alloc, b, env)?;
        made.push(b)?;
    }
    Ok(made)
}

/// What is behind the brackets before, with the value at this bracket's indices.
fn updated(
    alloc: Global,
    first: Expr,
    before: &[Indices],
    at: &Indices,
    value: Expr,
    env: &Env<'_>,
) -> Result<Expr, AllocError>
    ensures { IfOk result (λ x. m.ex_of (ex_of x) ≡ Update (selected (env_of env.now) (m.ex_of (ex_of first)) (map bracket_of before.now)) (renames (m.exs_of (bracket_of at.now).1) (env_of env.now)) (m.ex_of (ex_of value))) }
{
    let mut behind = selects(alloc, before, env)?;
    let indices = exprs(alloc, &at.indices, env)?;
    behind.push(Bracket::Update(at.pos, indices, value))?;
    Ok(Expr::Postfix(Box::new(alloc, first)?, behind))
}

/// The value that a target's variable gets, over incarnations: `m[i][j] := e` writes `m[i := m[i][j := e]]` to m.
///
/// Only want of memory is an error.
pub fn assigned(alloc: Global, target: &Target, e: &Expr, env: &Env<'_>) -> Result<Expr, AllocError>
    ensures { IfOk result (λ x. m.ex_of (ex_of x) ≡ rename (m.written (Read (var_of target.now.placed.variable)) (target_of target.now).brackets (m.ex_of (ex_of e.now))) (env_of env.now)) }
{
    let mut value = renamed(alloc, e, env)?;
    let mut left: &[Indices] = &target.brackets;
    while let Some((last, before)) = left.split_last() {
        let first = read(target.placed.pos, env, target.placed.variable);
        value = updated(alloc, first, before, last, value, env)?;
        left = before;
    }
    Ok(value)
}
