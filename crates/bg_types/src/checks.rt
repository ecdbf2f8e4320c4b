//! Bodies, clauses and axioms, where the types of declarations are given.
ghost use Rattle.std.specs.Prelude.{◌≡◌, ◌≤◌, ◌+◌, ℕ, [], drop, length, map, IfOk, OnOk, Some, slice_get};
ghost use Rattle.bg_text.specs.Views.{option_of};
ghost use Rattle.bg_ast.specs.Views.{ex_of, declared_of, fun_of, proc_of, impl_of};
ghost use Rattle.bg_ast.specs.declared.resolved.Implementation.{Implementation};
ghost use Rattle.bg_types.specs.declared.tables.Frame.{Frame};
ghost use Rattle.bg_kinds.specs.Faults.{first_of};
ghost use Rattle.bg_typing.specs.Sides.{matched_faults};
ghost use Rattle.bg_typing.specs.Stmts.{truths_faults};
ghost use Rattle.bg_types.specs.Programs.{with_frame, without_globals, body_faults};
ghost use Rattle.bg_types.specs.Checks.{bodies_by, specification_by, specifications_by, sides_by, matching_by, implementation_by, implementations_by};
ghost use Rattle.bg_kinds.specs.FaultViews.{best_of};
ghost use Rattle.bg_kinds.specs.KindViews.{kinds_in};
ghost use Rattle.bg_typing.specs.SideViews.{side_of, scope_of, shape_of};
ghost use Rattle.bg_types.specs.Tables.{frame_of};

use crate::tables::Frame;
use bg_ast::resolved::{Declared, Expr, Function, Implementation, Procedure};
use bg_base::Pos;
use bg_kinds::{Found, ValueType, kind_ref};
use bg_typing::{
    Scope, Shape, Side, check_stmts, kind_at, want_all, want_clauses, want_expr, want_truth,
};
use std::alloc::{AllocError, Global};

/// The same with this frame.
fn with_frame<'a>(g: Scope<'a>, frame: &'a [Option<ValueType>]) -> Scope<'a>
    ensures { scope_of result ≡ with_frame (scope_of g.entry) (kinds_in frame.now) }
{
    Scope {
        constants: g.constants,
        globals: g.globals,
        frame,
        functions: g.functions,
        procedures: g.procedures,
    }
}

/// The same with this frame, and no globals.
fn without_globals<'a>(g: Scope<'a>, frame: &'a [Option<ValueType>]) -> Scope<'a>
    ensures { scope_of result ≡ without_globals (scope_of g.entry) (kinds_in frame.now) }
{
    Scope {
        constants: g.constants,
        globals: &[],
        frame,
        functions: g.functions,
        procedures: g.procedures,
    }
}

fn check_body<'a>(
    alloc: Global,
    g: Scope<'a>,
    best: &mut Option<Found<'a>>,
    f: &'a Shape,
    body: &Option<Expr>,
) -> Result<(), AllocError>
    ensures { OnOk result (best_of best.new ≡ first_of (best_of best.old) (body_faults (scope_of g.entry) (shape_of f.now) (option_of ex_of body.now))) }
{
    match body {
        None => Ok(()),
        Some(e) => {
            let inside = without_globals(g, &f.params);
            want_expr(alloc, inside, best, kind_at(&f.results, 0), e)?;
            Ok(())
        }
    }
}

/// The bodies of functions, which have these types.
pub fn check_bodies<'a>(
    alloc: Global,
    g: Scope<'a>,
    best: &mut Option<Found<'a>>,
    shapes: &'a [Shape],
    fs: &[Function],
) -> Result<(), AllocError>
    requires { length shapes.now ≡ length fs.now }
    ensures { OnOk result (best_of best.new ≡ first_of (best_of best.old) (bodies_by (scope_of g.entry) (map shape_of shapes.now) (map fun_of fs.now))) }
{
    for i in 0..fs.len() {
        check_body(alloc, g, best, &shapes[i], &fs[i].body)?;
    }
    Ok(())
}

/// Axioms.
pub fn check_axioms<'a>(
    alloc: Global,
    g: Scope<'a>,
    best: &mut Option<Found<'a>>,
    es: &[Expr],
) -> Result<(), AllocError>
    ensures { OnOk result (best_of best.new ≡ first_of (best_of best.old) (truths_faults (without_globals (scope_of g.entry) []) (map ex_of es.now))) }
{
    let g = without_globals(g, &[]);
    check_truths(alloc, g, best, es)?;
    Ok(())
}

fn check_truths<'a>(
    alloc: Global,
    g: Scope<'a>,
    best: &mut Option<Found<'a>>,
    es: &[Expr],
) -> Result<(), AllocError>
    ensures { OnOk result (best_of best.new ≡ first_of (best_of best.old) (truths_faults (scope_of g.entry) (map ex_of es.now))) }
{
    for e in es {
        want_truth(alloc, g, best, e)?;
    }
    Ok(())
}

fn check_specification<'a>(
    alloc: Global,
    g: Scope<'a>,
    best: &mut Option<Found<'a>>,
    s: &'a Shape,
    frame: &'a Frame,
    q: &Procedure,
) -> Result<(), AllocError>
    ensures { OnOk result (best_of best.new ≡ first_of (best_of best.old) (specification_by (scope_of g.entry) (shape_of s.now) (frame_of frame.now) (proc_of q.now))) }
{
    let before = with_frame(g, &s.params);
    want_clauses(alloc, before, best, &q.requires_)?;
    let behind = with_frame(g, &frame.kinds);
    want_clauses(alloc, behind, best, &q.ensures_)?;
    Ok(())
}

/// The clauses of procedures, which have these types and frames.
pub fn check_specifications<'a>(
    alloc: Global,
    g: Scope<'a>,
    best: &mut Option<Found<'a>>,
    shapes: &'a [Shape],
    frames: &'a [Frame],
    qs: &[Procedure],
) -> Result<(), AllocError>
    requires shapes { length shapes.now ≡ length qs.now }
    requires frames { length frames.now ≡ length qs.now }
    ensures { OnOk result (best_of best.new ≡ first_of (best_of best.old) (specifications_by (scope_of g.entry) (map shape_of shapes.now) (map frame_of frames.now) (map proc_of qs.now))) }
{
    for i in 0..qs.len() {
        check_specification(alloc, g, best, &shapes[i], &frames[i], &qs[i])?;
    }
    Ok(())
}

/// Declarations with their types, at their names.
fn sides_by<'a>(
    alloc: Global,
    ds: &[Declared],
    kinds: &'a [Option<ValueType>],
) -> Result<Vec<Side<'a>>, AllocError>
    requires { length ds.now ≤ length kinds.now }
    ensures { IfOk result (λ made. map side_of made.items ≡ sides_by (map declared_of ds.now) (kinds_in kinds.now)) }
{
    let mut made = Vec::new(alloc);
    for i in 0..ds.len() {
        made.push(Side {
            start: ds[i].name.pos,
            kind: kind_ref(&kinds[i]),
            is_constant: false,
        })?;
    }
    Ok(made)
}

/// The types behind those of these declarations.
fn behind<'a>(ds: &[Declared], kinds: &'a [Option<ValueType>]) -> &'a [Option<ValueType>]
    requires { length ds.now ≤ length kinds.now }
    ensures kinds { kinds_in result.now ≡ drop (length (map declared_of ds.now)) (kinds_in kinds.now) }
    ensures len { length result.now + length ds.now ≡ length kinds.now }
{
    &kinds[ds.len()..]
}

/// Declarations of which these types are wanted; their number is asked for at `p`.
fn want_declared<'a>(
    alloc: Global,
    best: &mut Option<Found<'a>>,
    p: Pos,
    ws: &'a [Option<ValueType>],
    ds: &[Declared],
    kinds: &'a [Option<ValueType>],
) -> Result<(), AllocError>
    requires { length ds.now ≤ length kinds.now }
    ensures { OnOk result (best_of best.new ≡ first_of (best_of best.old) (matched_faults p (kinds_in ws.now) (sides_by (map declared_of ds.now) (kinds_in kinds.now)))) }
{
    let sides = sides_by(alloc, ds, kinds)?;
    want_all(best, p, ws, &sides);
    Ok(())
}

fn want_matching<'a>(
    alloc: Global,
    best: &mut Option<Found<'a>>,
    q: &'a Shape,
    frame: &'a [Option<ValueType>],
    m: &Implementation,
) -> Result<(), AllocError>
    requires { length m.now.params.items + length m.now.results.items ≤ length frame.now }
    ensures { OnOk result (best_of best.new ≡ first_of (best_of best.old) (matching_by (Some (shape_of q.now)) (kinds_in frame.now) (impl_of m.now))) }
{
    let rest = behind(&m.params, frame);
    want_declared(alloc, best, m.name.pos, &q.params, &m.params, frame)?;
    want_declared(alloc, best, m.name.pos, &q.results, &m.results, rest)?;
    Ok(())
}

fn check_matching<'a>(
    alloc: Global,
    procedures: &'a [Shape],
    best: &mut Option<Found<'a>>,
    frame: &'a [Option<ValueType>],
    m: &Implementation,
) -> Result<(), AllocError>
    requires { length m.now.params.items + length m.now.results.items ≤ length frame.now }
    ensures { OnOk result (best_of best.new ≡ first_of (best_of best.old) (matching_by (slice_get (map shape_of procedures.now) m.now.procedure) (kinds_in frame.now) (impl_of m.now))) }
{
    match procedures.get(m.procedure as usize) {
        None => Ok(()),
        Some(q) => {
            want_matching(alloc, best, q, frame, m)?;
            Ok(())
        }
    }
}

fn check_implementation<'a>(
    alloc: Global,
    g: Scope<'a>,
    best: &mut Option<Found<'a>>,
    frame: &'a Frame,
    m: &Implementation,
) -> Result<(), AllocError>
    requires { length m.now.params.items + length m.now.results.items ≤ length frame.now.kinds.items }
    ensures { OnOk result (best_of best.new ≡ first_of (best_of best.old) (implementation_by (scope_of g.entry) (frame_of frame.now) (impl_of m.now))) }
{
    check_matching(alloc, g.procedures, best, &frame.kinds, m)?;
    let inside = with_frame(g, &frame.kinds);
    check_stmts(alloc, inside, best, &m.body)?;
    Ok(())
}

/// Implementations, which have these frames.
pub fn check_implementations<'a>(
    alloc: Global,
    g: Scope<'a>,
    best: &mut Option<Found<'a>>,
    frames: &'a [Frame],
    ms: &[Implementation],
) -> Result<(), AllocError>
    requires frames { length frames.now ≡ length ms.now }
    requires wide { (i : ℕ) (f : Frame) (m : Implementation) → slice_get frames.now i ≡ Some f → slice_get ms.now i ≡ Some m → length m.params.items + length m.results.items ≤ length f.kinds.items }
    ensures { OnOk result (best_of best.new ≡ first_of (best_of best.old) (implementations_by (scope_of g.entry) (map frame_of frames.now) (map impl_of ms.now))) }
{
    for i in 0..ms.len() {
        check_implementation(alloc, g, best, &frames[i], &ms[i])?;
    }
    Ok(())
}
