//! Parts of statements: clauses, guards, assigned variables, calls.
ghost use Rattle.std.specs.Prelude.{◌≡◌, ◌++◌, length, map, IfOk, OnOk, Some, slice_get};
ghost use Rattle.bg_ast.specs.Values.{BoolTy};
ghost use Rattle.bg_ast.specs.Views.{ex_of, exs_in, clause_of, guard_of, placed_of, bracket_of, target_of, call_of};
ghost use Rattle.bg_kinds.specs.Faults.{first_of, is_none};
ghost use Rattle.bg_typing.specs.Sides.{matched_faults, pairs_faults};
ghost use Rattle.bg_typing.specs.Exprs.{judge_all, sides_of, faults_of};
ghost use Rattle.bg_typing.specs.Stmts.{wanted_faults, truth_faults, clauses_faults, guard_faults, placed_side, placed_sides, indexed, target, targets, kinds_of, sides_faults, assign_faults, take_faults, takes_faults, results_faults, own_call_faults, call_faults};
ghost use Rattle.bg_kinds.specs.FaultViews.{best_of};
ghost use Rattle.bg_kinds.specs.KindViews.{kind_of, kind_in_of, kinds_in};
ghost use Rattle.bg_typing.specs.SideViews.{side_of, scope_of, shape_of};

use crate::exprs::{judge, judge_list};
use crate::nodes::{are_typed, select, want_all, want_pair};
use crate::scope::{Scope, Shape, variable_kind};
use crate::sides::Side;
use bg_ast::resolved::{Call, Clause, Expr, Guard, Indices, Placed, Target};
use bg_base::Pos;
use bg_kinds::{Base, Found, TypeRef, ValueType, kind_ref, note, plain};
use std::alloc::{AllocError, Global};

/// An expression of which this type is wanted, where one is.
pub fn want_expr<'a>(
    alloc: Global,
    g: Scope<'a>,
    best: &mut Option<Found<'a>>,
    wanted: Option<TypeRef<'a>>,
    e: &Expr,
) -> Result<(), AllocError>
    ensures { OnOk result (best_of best.new ≡ first_of (best_of best.old) (wanted_faults (scope_of g.entry) (kind_of wanted.entry) (ex_of e.now))) }
{
    let a = judge(alloc, g, best, e)?;
    want_pair(best, wanted, a);
    Ok(())
}

/// An expression that is to be a truth value.
pub fn want_truth<'a>(
    alloc: Global,
    g: Scope<'a>,
    best: &mut Option<Found<'a>>,
    e: &Expr,
) -> Result<(), AllocError>
    ensures { OnOk result (best_of best.new ≡ first_of (best_of best.old) (truth_faults (scope_of g.entry) (ex_of e.now))) }
{
    want_expr(alloc, g, best, Some(plain(Base::Bool)), e)
}

pub fn want_clauses<'a>(
    alloc: Global,
    g: Scope<'a>,
    best: &mut Option<Found<'a>>,
    clauses: &[Clause],
) -> Result<(), AllocError>
    ensures { OnOk result (best_of best.new ≡ first_of (best_of best.old) (clauses_faults (scope_of g.entry) (map clause_of clauses.now))) }
{
    for k in clauses {
        want_truth(alloc, g, best, &k.formula)?;
    }
    Ok(())
}

pub fn want_guard<'a>(
    alloc: Global,
    g: Scope<'a>,
    best: &mut Option<Found<'a>>,
    guard: &Guard,
) -> Result<(), AllocError>
    ensures { OnOk result (best_of best.new ≡ first_of (best_of best.old) (guard_faults (scope_of g.entry) (guard_of guard.now))) }
{
    match guard {
        Guard::Star => Ok(()),
        Guard::Test(e) => want_truth(alloc, g, best, e),
    }
}

/// A variable at a place.
fn side_at<'a>(g: Scope<'a>, x: Placed) -> Side<'a>
    ensures { side_of result ≡ placed_side (scope_of g.entry) (placed_of x) }
{
    Side {
        start: x.pos,
        kind: variable_kind(g, x.variable),
        is_constant: false,
    }
}

fn sides_at<'a>(alloc: Global, g: Scope<'a>, xs: &[Placed]) -> Result<Vec<Side<'a>>, AllocError>
    ensures { IfOk result (λ made. map side_of made.items ≡ placed_sides (scope_of g.entry) (map placed_of xs.now)) }
{
    let mut made = Vec::new(alloc);
    for x in xs {
        made.push(side_at(g, *x))?;
    }
    Ok(made)
}

/// Brackets behind a variable that is assigned.
fn put_indices<'a>(
    alloc: Global,
    g: Scope<'a>,
    best: &mut Option<Found<'a>>,
    m: Side<'a>,
    brackets: &[Indices],
) -> Result<Side<'a>, AllocError>
    ensures best { OnOk result (best_of best.new ≡ first_of (best_of best.old) (indexed (scope_of g.entry) (side_of m.entry) (map bracket_of brackets.now)).faults) }
    ensures side { IfOk result (λ a. side_of a ≡ (indexed (scope_of g.entry) (side_of m.entry) (map bracket_of brackets.now)).side) }
{
    let mut side = m;
    for bracket in brackets {
        let es = judge_list(alloc, g, best, &bracket.indices)?;
        side = select(best, bracket.pos, side, &es);
    }
    Ok(side)
}

fn judge_target<'a>(
    alloc: Global,
    g: Scope<'a>,
    best: &mut Option<Found<'a>>,
    t: &Target,
) -> Result<Side<'a>, AllocError>
    ensures best { OnOk result (best_of best.new ≡ first_of (best_of best.old) (target (scope_of g.entry) (target_of t.now)).faults) }
    ensures side { IfOk result (λ a. side_of a ≡ (target (scope_of g.entry) (target_of t.now)).side) }
{
    put_indices(alloc, g, best, side_at(g, t.placed), &t.brackets)
}

fn judge_targets<'a>(
    alloc: Global,
    g: Scope<'a>,
    best: &mut Option<Found<'a>>,
    ts: &[Target],
) -> Result<Vec<Side<'a>>, AllocError>
    ensures best { OnOk result (best_of best.new ≡ first_of (best_of best.old) (faults_of (targets (scope_of g.entry) (map target_of ts.now)))) }
    ensures sides { IfOk result (λ made. map side_of made.items ≡ sides_of (targets (scope_of g.entry) (map target_of ts.now))) }
{
    let mut made = Vec::new(alloc);
    for t in ts {
        made.push(judge_target(alloc, g, best, t)?)?;
    }
    Ok(made)
}

fn want_same<'a>(best: &mut Option<Found<'a>>, ts: &[Side<'a>], es: &[Side<'a>])
    requires { length ts.now ≡ length es.now }
    ensures { best_of best.new ≡ first_of (best_of best.old) (pairs_faults (kinds_of (map side_of ts.now)) (map side_of es.now)) }
{
    for i in 0..ts.len() {
        want_pair(best, ts[i].kind, es[i]);
    }
}

/// Both sides of an assignment, whose `:=` stands at `p`.
fn want_sides<'a>(best: &mut Option<Found<'a>>, p: Pos, ts: &[Side<'a>], es: &[Side<'a>])
    ensures { best_of best.new ≡ first_of (best_of best.old) (sides_faults p (map side_of ts.now) (map side_of es.now)) }
{
    if !are_typed(ts) || !are_typed(es) {
        return;
    }
    if ts.len() != es.len() {
        note(best, Found::Arity(p));
        return;
    }
    want_same(best, ts, es);
}

pub fn want_assign<'a>(
    alloc: Global,
    g: Scope<'a>,
    best: &mut Option<Found<'a>>,
    p: Pos,
    ts: &[Target],
    es: &[Expr],
) -> Result<(), AllocError>
    ensures { OnOk result (best_of best.new ≡ first_of (best_of best.old) (assign_faults (scope_of g.entry) p (targets (scope_of g.entry) (map target_of ts.now)) (judge_all (scope_of g.entry) (exs_in es.now)))) }
{
    let left = judge_targets(alloc, g, best, ts)?;
    let right = judge_list(alloc, g, best, es)?;
    want_sides(best, p, &left, &right);
    Ok(())
}

/// A result of a call, at the variable that takes it.
fn want_take<'a>(best: &mut Option<Found<'a>>, x: Side<'a>, t: Option<TypeRef<'a>>)
    ensures { best_of best.new ≡ first_of (best_of best.old) (take_faults (side_of x.entry) (kind_of t.entry)) }
{
    let found = Side {
        start: x.start,
        kind: t,
        is_constant: false,
    };
    want_pair(best, x.kind, found);
}

fn want_takes<'a>(best: &mut Option<Found<'a>>, xs: &[Side<'a>], ts: &'a [Option<ValueType>])
    requires { length xs.now ≡ length ts.now }
    ensures { best_of best.new ≡ first_of (best_of best.old) (takes_faults (map side_of xs.now) (kinds_in ts.now)) }
{
    for i in 0..xs.len() {
        want_take(best, xs[i], kind_ref(&ts[i]));
    }
}

/// The results of a call of the procedure whose name stands at `p`.
fn want_results<'a>(
    best: &mut Option<Found<'a>>,
    p: Pos,
    xs: &[Side<'a>],
    ts: &'a [Option<ValueType>],
)
    ensures { best_of best.new ≡ first_of (best_of best.old) (results_faults p (map side_of xs.now) (kinds_in ts.now)) }
{
    if xs.len() != ts.len() {
        note(best, Found::Arity(p));
        return;
    }
    want_takes(best, xs, ts);
}

/// Arguments and results, where each has a type.
fn want_parts<'a>(
    best: &mut Option<Found<'a>>,
    p: Pos,
    q: &'a Shape,
    args: &[Side<'a>],
    takes: &[Side<'a>],
)
    ensures { best_of best.new ≡ first_of (best_of best.old) (matched_faults p (shape_of q.now).params (map side_of args.now) ++ results_faults p (map side_of takes.now) (shape_of q.now).results) }
{
    want_all(best, p, &q.params, args);
    want_results(best, p, takes, &q.results);
}

/// A call's own faults.
fn want_shape<'a>(
    best: &mut Option<Found<'a>>,
    p: Pos,
    procedures: &'a [Shape],
    procedure: u32,
    args: &[Side<'a>],
    takes: &[Side<'a>],
)
    ensures { best_of best.new ≡ first_of (best_of best.old) (own_call_faults p (slice_get (map shape_of procedures.now) procedure) (map side_of args.now) (map side_of takes.now)) }
{
    let Some(q) = procedures.get(procedure as usize) else {
        return;
    };
    if !are_typed(args) || !are_typed(takes) {
        return;
    }
    want_parts(best, p, q, args, takes);
}

pub fn want_call<'a>(
    alloc: Global,
    g: Scope<'a>,
    best: &mut Option<Found<'a>>,
    k: &Call,
) -> Result<(), AllocError>
    ensures { OnOk result (best_of best.new ≡ first_of (best_of best.old) (call_faults (scope_of g.entry) (call_of k.now))) }
{
    let args = judge_list(alloc, g, best, &k.args)?;
    let takes = sides_at(alloc, g, &k.takes)?;
    want_shape(best, k.name_pos, g.procedures, k.procedure, &args, &takes);
    Ok(())
}
