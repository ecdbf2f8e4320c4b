//! The ways on from a block.
ghost use Rattle.std.specs.Prelude.{◌≡◌, [], ◌∷◌, ◌++◌, map, slice_get, IfOk, OnOk};
ghost use Rattle.bg_ast.specs.Meaning as m;
ghost use Rattle.bg_ast.specs.Views as view;
ghost use Rattle.bg_flow.specs.Blocks.{Leap, Either};
ghost use Rattle.bg_blocks.specs.Views.{exit_of};
ghost use Rattle.bg_passive.specs.Incarnations.{joins, join_env, edge_to, edges};
ghost use Rattle.bg_incarnate.specs.Views.{cmds_of, edge_of, held_env};
ghost use Rattle.bg_incarnate.specs.Arrived.{arrival_of};

use crate::arrived::Arrived;
use crate::blocks::{Edge, PassiveCmd};
use crate::clauses::suppose;
use crate::held::{Held, seen};
use crate::worth::suppose_worth;
use bg_ast::resolved::{Expr, Guard, Variable};
use bg_base::Pos;
use bg_blocks::Exit;
use bg_renamed::{negated, renamed};
use std::alloc::{AllocError, Global};
use std::collections::VecDeque;

/// Where the later incarnation is another one, it is worth the earlier.
#[tactic(auto, using(crate::proofs::Joins::join_forms))]
fn join(
    alloc: Global,
    out: &mut Vec<PassiveCmd>,
    here: &[u32],
    there: &[u32],
) -> Result<(), AllocError>
    ensures { OnOk result (cmds_of out.new.items ≡ cmds_of out.old.items ++ joins here.now there.now) }
{
    for (k, i) in here.iter().enumerate() {
        if k >= there.len() {
            return Ok(());
        }
        let j = there[k];
        if *i != j {
            let earlier = Expr::Read(Pos { line: 0, column: 0 }, Variable::Local(*i));
            suppose_worth(alloc, out, j, earlier)?;
        }
    }
    Ok(())
}

/// What a way to the block that is so far ahead supposes of its incarnations.
#[tactic(auto, using(crate::proofs::Joins::join_forms))]
fn join_at(
    alloc: Global,
    out: &mut Vec<PassiveCmd>,
    held: &Held<'_>,
    later: &VecDeque<Arrived<'_>>,
    to: usize,
) -> Result<(), AllocError>
    ensures { OnOk result (cmds_of out.new.items ≡ cmds_of out.old.items ++ join_env (held_env held.now) (slice_get (map arrival_of later.now.items) to)) }
{
    match later.get(to) {
        None => Ok(()),
        Some(a) => {
            join(alloc, out, &held.globals, &a.held.globals)?;
            join(alloc, out, &held.frame, &a.held.frame)
        }
    }
}

/// The way to the block that is so far ahead, where this is supposed first.
fn edge(
    alloc: Global,
    held: &Held<'_>,
    later: &VecDeque<Arrived<'_>>,
    first: Vec<PassiveCmd>,
    to: usize,
) -> Result<Edge, AllocError>
    ensures { IfOk result (λ e. edge_of e ≡ edge_to (held_env held.now) (map arrival_of later.now.items) (cmds_of first.items) to) }
{
    let mut cmds = first;
    join_at(alloc, &mut cmds, held, later, to)?;
    Ok(Edge { cmds, to })
}

/// A way to each of these blocks.
fn each(
    alloc: Global,
    held: &Held<'_>,
    later: &VecDeque<Arrived<'_>>,
    ks: &[usize],
) -> Result<Vec<Edge>, AllocError>
    ensures { IfOk result (λ made. map edge_of made.items ≡ map (edge_to (held_env held.now) (map arrival_of later.now.items) []) ks.now) }
{
    let mut made = Vec::new(alloc);
    for k in ks {
        let e = edge(alloc, held, later, Vec::new(alloc), *k)?;
        made.push(e)?;
    }
    Ok(made)
}

/// The ways of a jump: where it names no block, on to the next one.
#[tactic(auto, using(crate::proofs::Joins::edges_leap))]
fn leaps(
    alloc: Global,
    held: &Held<'_>,
    later: &VecDeque<Arrived<'_>>,
    ks: &[usize],
) -> Result<Vec<Edge>, AllocError>
    ensures { IfOk result (λ made. map edge_of made.items ≡ edges (held_env held.now) (map arrival_of later.now.items) (Leap ks.now)) }
{
    if ks.is_empty() {
        each(alloc, held, later, &[0])
    } else {
        each(alloc, held, later, ks)
    }
}

/// Two ways, each with what is supposed on it.
fn two(
    alloc: Global,
    held: &Held<'_>,
    later: &VecDeque<Arrived<'_>>,
    says: (Vec<PassiveCmd>, Vec<PassiveCmd>),
    on: usize,
    off: usize,
) -> Result<Vec<Edge>, AllocError>
    ensures { IfOk result (λ made. map edge_of made.items ≡ edge_to (held_env held.now) (map arrival_of later.now.items) (cmds_of says.0.items) on ∷ edge_to (held_env held.now) (map arrival_of later.now.items) (cmds_of says.1.items) off ∷ []) }
{
    let (first, second) = says;
    let mut made = Vec::new(alloc);
    let a = edge(alloc, held, later, first, on)?;
    made.push(a)?;
    let b = edge(alloc, held, later, second, off)?;
    made.push(b)?;
    Ok(made)
}

/// The ways of a guard: it is supposed on the first, and its denial on the second.
fn either(
    alloc: Global,
    held: &Held<'_>,
    later: &VecDeque<Arrived<'_>>,
    guard: &Guard,
    on: usize,
    off: usize,
) -> Result<Vec<Edge>, AllocError>
    ensures { IfOk result (λ made. map edge_of made.items ≡ edges (held_env held.now) (map arrival_of later.now.items) (Either (m.guard_of (view.guard_of guard.now)) on off)) }
{
    let mut yes = Vec::new(alloc);
    let mut no = Vec::new(alloc);
    match guard {
        Guard::Star => two(alloc, held, later, (yes, no), on, off),
        Guard::Test(e) => {
            let holds = renamed(alloc, e, &seen(held))?;
            suppose(&mut yes, None, holds)?;
            let says = renamed(alloc, e, &seen(held))?;
            let fails = negated(alloc, says)?;
            suppose(&mut no, None, fails)?;
            two(alloc, held, later, (yes, no), on, off)
        }
    }
}

/// The ways on from a block whose incarnations are these at its end.
pub fn edges_of(
    alloc: Global,
    held: &Held<'_>,
    later: &VecDeque<Arrived<'_>>,
    exit: &Exit<'_>,
) -> Result<Vec<Edge>, AllocError>
    ensures { IfOk result (λ made. map edge_of made.items ≡ edges (held_env held.now) (map arrival_of later.now.items) (exit_of exit.now)) }
{
    match exit {
        Exit::Leap(ks) => leaps(alloc, held, later, ks),
        Exit::Either(guard, on, off) => either(alloc, held, later, guard, *on, *off),
    }
}
