//! Expressions.
ghost use Rattle.std.specs.Prelude.{◌≡◌, ◌++◌, [], map, IfOk, OnOk, slice_get};
ghost use Rattle.bg_ast.specs.Views.{ex_of, exs_in, brackets_of, bracket_view, links_of, link_view};
ghost use Rattle.bg_kinds.specs.Faults.{first_of};
ghost use Rattle.bg_typing.specs.Sides.{apply_side, apply_kind, apply_faults};
ghost use Rattle.bg_typing.specs.Exprs.{judge, judge_all, behind, chained, sides_of, faults_of, bracket_side, bracket_faults, in_parens, in_old, made};
ghost use Rattle.bg_typing.specs.Chains.{unwound, waits, left_side, left_faults};
ghost use Rattle.bg_kinds.specs.FaultViews.{best_of};
ghost use Rattle.bg_kinds.specs.KindViews.{kind_of};
ghost use Rattle.bg_typing.specs.SideViews.{side_of, scope_of, shape_of, waiting_of};

use crate::nodes::{are_typed, put_signs, select, update, want_all};
use crate::scope::{Scope, Shape, kind_at, variable_kind};
use crate::sides::{Side, join};
use bg_ast::resolved::{Bracket, Expr, Link};
use bg_base::Pos;
use bg_kinds::{Base, Found, TypeRef, plain};
use bg_text::InfixSign;
use std::alloc::{AllocError, Global};

/// The left side of a `==>`, and where the sign stands.
#[derive(Clone, Copy)]
pub struct Waiting<'a> {
    pub pos: Pos,
    pub side: Side<'a>,
}

/// The type of a function's value, where each argument has the type that is wanted.
fn apply_kind<'a>(
    best: &mut Option<Found<'a>>,
    p: Pos,
    functions: &'a [Shape],
    f: u32,
    args: &[Side<'a>],
) -> Option<TypeRef<'a>>
    ensures best { best_of best.new ≡ first_of (best_of best.old) (apply_faults p (slice_get (map shape_of functions.now) f) (map side_of args.now)) }
    ensures kind { kind_of result ≡ apply_kind p (slice_get (map shape_of functions.now) f) (map side_of args.now) }
{
    let Some(f) = functions.get(f as usize) else {
        return None;
    };
    if !are_typed(args) || !want_all(best, p, &f.params, args) {
        return None;
    }
    kind_at(&f.results, 0)
}

/// A function's value.
fn apply<'a>(
    best: &mut Option<Found<'a>>,
    p: Pos,
    functions: &'a [Shape],
    f: u32,
    args: &[Side<'a>],
) -> Side<'a>
    ensures best { best_of best.new ≡ first_of (best_of best.old) (apply_faults p (slice_get (map shape_of functions.now) f) (map side_of args.now)) }
    ensures side { side_of result ≡ apply_side p (slice_get (map shape_of functions.now) f) (map side_of args.now) }
{
    Side {
        start: p,
        kind: apply_kind(best, p, functions, f, args),
        is_constant: false,
    }
}

fn leaf<'a>(start: Pos, kind: Option<TypeRef<'a>>, is_constant: bool) -> Side<'a>
    ensures { side_of result ≡ record { start = start; kind = kind_of kind.entry; is_constant = is_constant } }
{
    Side {
        start,
        kind,
        is_constant,
    }
}

/// What is known of an expression; its faults are noted.
#[cycle(judge)]
pub fn judge<'a>(
    alloc: Global,
    g: Scope<'a>,
    best: &mut Option<Found<'a>>,
    e: &Expr,
) -> Result<Side<'a>, AllocError>
    ensures best { OnOk result (best_of best.new ≡ first_of (best_of best.old) (judge (scope_of g.entry) (ex_of e.now)).faults) }
    ensures side { IfOk result (λ a. side_of a ≡ (judge (scope_of g.entry) (ex_of e.now)).side) }
{
    match e {
        Expr::Number(p, _) => Ok(leaf(*p, Some(plain(Base::Int)), true)),
        Expr::Truth(p, _) => Ok(leaf(*p, Some(plain(Base::Bool)), false)),
        Expr::Constant(p, k) => Ok(leaf(*p, kind_at(g.constants, *k), false)),
        Expr::Read(p, x) => Ok(leaf(*p, variable_kind(g, *x), false)),
        Expr::Apply(p, f, args) => {
            let es = judge_list(alloc, g, best, args)?;
            Ok(apply(best, *p, g.functions, *f, &es))
        }
        Expr::Old(p, e) => {
            let a = judge(alloc, g, best, e)?;
            Ok(leaf(*p, a.kind, false))
        }
        Expr::Parens(p, e) => {
            let a = judge(alloc, g, best, e)?;
            Ok(leaf(*p, a.kind, a.is_constant))
        }
        Expr::Prefix(signs, e) => {
            let a = judge(alloc, g, best, e)?;
            Ok(put_signs(best, signs, a))
        }
        Expr::Postfix(e, brackets) => {
            let m = judge(alloc, g, best, e)?;
            let side = judge_brackets(alloc, g, best, m, brackets)?;
            Ok(side)
        }
        Expr::Chain(e, links) => {
            let a = judge(alloc, g, best, e)?;
            let side = judge_chain(alloc, g, best, a, links)?;
            Ok(side)
        }
    }
}

/// What is known of each expression of a list.
#[cycle(judge)]
pub fn judge_list<'a>(
    alloc: Global,
    g: Scope<'a>,
    best: &mut Option<Found<'a>>,
    es: &[Expr],
) -> Result<Vec<Side<'a>>, AllocError>
    ensures best { OnOk result (best_of best.new ≡ first_of (best_of best.old) (faults_of (judge_all (scope_of g.entry) (exs_in es.now)))) }
    ensures sides { IfOk result (λ made. map side_of made.items ≡ sides_of (judge_all (scope_of g.entry) (exs_in es.now))) }
{
    let mut made = Vec::new(alloc);
    for e in es {
        made.push(judge(alloc, g, best, e)?)?;
    }
    Ok(made)
}

/// A bracket behind an expression.
#[cycle(judge)]
fn judge_bracket<'a>(
    alloc: Global,
    g: Scope<'a>,
    best: &mut Option<Found<'a>>,
    m: Side<'a>,
    bracket: &Bracket,
) -> Result<Side<'a>, AllocError>
    ensures best { OnOk result (let b = bracket_view bracket.now in best_of best.new ≡ first_of (best_of best.old) (bracket_faults (scope_of g.entry) (side_of m.entry) b.0 b.1 b.2)) }
    ensures side { let b = bracket_view bracket.now in IfOk result (λ a. side_of a ≡ bracket_side (scope_of g.entry) (side_of m.entry) b.0 b.1 b.2) }
{
    match bracket {
        Bracket::Select(p, indices) => {
            let es = judge_list(alloc, g, best, indices)?;
            Ok(select(best, *p, m, &es))
        }
        Bracket::Update(p, indices, value) => {
            let es = judge_list(alloc, g, best, indices)?;
            let e = judge(alloc, g, best, value)?;
            Ok(update(best, *p, m, &es, e))
        }
    }
}

#[cycle(judge)]
fn judge_brackets<'a>(
    alloc: Global,
    g: Scope<'a>,
    best: &mut Option<Found<'a>>,
    m: Side<'a>,
    brackets: &[Bracket],
) -> Result<Side<'a>, AllocError>
    ensures best { OnOk result (best_of best.new ≡ first_of (best_of best.old) (behind (scope_of g.entry) (side_of m.entry) (brackets_of (map bracket_view brackets.now))).faults) }
    ensures side { IfOk result (λ a. side_of a ≡ (behind (scope_of g.entry) (side_of m.entry) (brackets_of (map bracket_view brackets.now))).side) }
{
    let mut side = m;
    for bracket in brackets {
        side = judge_bracket(alloc, g, best, side, bracket)?;
    }
    Ok(side)
}

/// One more operand of a chain, behind a sign at `p`: the left side of what follows.
fn put_operand<'a>(
    best: &mut Option<Found<'a>>,
    waiting: &mut Vec<Waiting<'a>>,
    sign: InfixSign,
    p: Pos,
    a: Side<'a>,
    b: Side<'a>,
) -> Result<Side<'a>, AllocError>
    ensures best { OnOk result (best_of best.new ≡ first_of (best_of best.old) (left_faults sign p (side_of a.entry) (side_of b.entry))) }
    ensures waiting { OnOk result (map waiting_of waiting.new.items ≡ map waiting_of waiting.old.items ++ waits sign p (side_of a.entry)) }
    ensures side { IfOk result (λ c. side_of c ≡ left_side sign (side_of a.entry) (side_of b.entry)) }
{
    match sign {
        InfixSign::Implies => {
            waiting.push(Waiting { pos: p, side: a })?;
            Ok(b)
        }
        _ => Ok(join(best, sign, p, a, b)),
    }
}

/// What waits, joined to the last operand.
fn unwind<'a>(
    best: &mut Option<Found<'a>>,
    mut waiting: Vec<Waiting<'a>>,
    last: Side<'a>,
) -> Side<'a>
    ensures best { best_of best.new ≡ first_of (best_of best.old) (unwound (map waiting_of waiting.entry.items) (made (side_of last.entry) [])).faults }
    ensures side { side_of result ≡ (unwound (map waiting_of waiting.entry.items) (made (side_of last.entry) [])).side }
{
    let mut side = last;
    while let Some(x) = waiting.pop() {
        side = join(best, InfixSign::Implies, x.pos, x.side, side);
    }
    side
}

#[cycle(judge)]
fn judge_chain<'a>(
    alloc: Global,
    g: Scope<'a>,
    best: &mut Option<Found<'a>>,
    a: Side<'a>,
    links: &[Link],
) -> Result<Side<'a>, AllocError>
    ensures best { OnOk result (best_of best.new ≡ first_of (best_of best.old) (chained (scope_of g.entry) (side_of a.entry) (links_of (map link_view links.now))).faults) }
    ensures side { IfOk result (λ b. side_of b ≡ (chained (scope_of g.entry) (side_of a.entry) (links_of (map link_view links.now))).side) }
{
    let mut waiting = Vec::new(alloc);
    let mut side = a;
    for link in links {
        let b = judge(alloc, g, best, &link.operand)?;
        side = put_operand(best, &mut waiting, link.sign, link.pos, side, b)?;
    }
    Ok(unwind(best, waiting, side))
}
