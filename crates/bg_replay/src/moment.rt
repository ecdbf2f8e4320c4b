//! Moments of a run.
ghost use Rattle.std.specs.Prelude.{◌≡◌, map, slice_set, drop, IfOk, OnOk};
ghost use Rattle.bg_ast.specs.Meaning.{variable_of};
ghost use Rattle.bg_ast.specs.Views.{var_of, placed_of, target_of};
ghost use Rattle.bg_kinds.specs.Views.{ref_of};
ghost use Rattle.bg_blocks.specs.Views.{target_variable};
ghost use Rattle.bg_replay.specs.Moments.{seen_at};
ghost use Rattle.bg_scalar.specs.Values.{value_of};
ghost use Rattle.bg_scalar.specs.Views.{lent_at, seen_of, vals_in};
ghost use Rattle.bg_replay.specs.Holds.{variable_type};
ghost use Rattle.bg_replay.specs.Acts.{taken, moved, put, put_each, forgotten};
ghost use Rattle.bg_replay.specs.Said.{on_said};
ghost use Rattle.bg_replay.specs.Ways.{branched};
ghost use Rattle.bg_replay.specs.Views.{moment_of, around_of, said_of};

use crate::ending::{Ending, Step};
use crate::holds::{type_at, typed_value};
use bg_ast::resolved::{Placed, Resolved, Target, Variable};
use bg_kinds::{TypeRef, ValueType};
use bg_scalar::{Choice, Sight, Table, Value, copy};
use std::alloc::{AllocError, Global};

/// The values of the variables, and the choices that are left.
#[derive(Drop)]
pub struct Moment<'c> {
    pub globals: Vec<Value>,
    pub frame: Vec<Value>,
    pub left: &'c [Choice],
}

/// What stays the same during a run: the candidates that are there, the tables of functions, the globals at entry, and the types of
/// globals and of variables of the frame.
#[derive(Clone, Copy)]
pub struct Around<'a> {
    pub alloc: Global,
    pub program: &'a Resolved,
    pub set: &'a [bool],
    pub tables: &'a [Table],
    pub before: &'a [Value],
    pub globals: &'a [ValueType],
    pub frame: &'a [ValueType],
}

/// What expressions see at this moment.
pub fn seen<'m>(around: Around<'m>, moment: &'m Moment<'_>) -> Sight<'m>
    ensures { seen_of result ≡ seen_at (around_of around.entry) (moment_of moment.now) }
{
    Sight {
        tables: around.tables,
        globals: &moment.globals,
        before: around.before,
        frame: &moment.frame,
    }
}

/// The value that is chosen next, where it is of this type.
fn take_value<'c>(moment: &mut Moment<'c>, t: TypeRef<'_>) -> Option<&'c Value>
    ensures value { lent_at result ≡ taken (ref_of t.entry) (moment_of moment.old).choices }
    ensures moved { moment_of moment.new ≡ moved (moment_of moment.old) }
{
    match moment.left.split_first() {
        None => None,
        Some((first, rest)) => {
            moment.left = rest;
            typed_value(t, first)
        }
    }
}

/// The branch that is chosen next.
pub fn take_branch(moment: &mut Moment<'_>) -> Option<u32>
    ensures value { result ≡ branched (moment_of moment.old).choices }
    ensures moved { moment_of moment.new ≡ moved (moment_of moment.old) }
{
    match moment.left.split_first() {
        None => None,
        Some((first, rest)) => {
            moment.left = rest;
            match first {
                Choice::Branch(k) => Some(*k),
                Choice::Chosen(_) => None,
            }
        }
    }
}

/// What is left of the values after the first `n`.
pub fn rest_of<T>(values: &[T], n: usize) -> &[T]
    ensures { result.now ≡ drop n values.now }
{
    if n <= values.len() { &values[n..] } else { &[] }
}

#[tactic(auto, using(crate::proofs::Puts::value_set))]
fn set(values: &mut [Value], k: usize, x: Value)
    ensures { vals_in values.new ≡ slice_set (vals_in values.old) k (value_of x) }
{
    if k < values.len() {
        values[k] = x;
    }
}

/// The variable has this value now.
pub fn put(moment: &mut Moment<'_>, x: Variable, y: Value)
    ensures { moment_of moment.new ≡ put (var_of x) (value_of y) (moment_of moment.old) }
{
    match x {
        Variable::Global(k) => set(&mut moment.globals, k as usize, y),
        Variable::Local(k) => set(&mut moment.frame, k as usize, y),
    }
}

/// What takes results has copies of these values, in order.
///
/// Only want of memory is an error.
#[tactic(auto, using(crate::proofs::Puts::put_past))]
pub fn put_taken(
    alloc: Global,
    moment: &mut Moment<'_>,
    takes: &[Placed],
    values: &[Value],
) -> Result<(), AllocError>
    ensures { OnOk result (moment_of moment.new ≡ put_each (map variable_of (map placed_of takes.now)) (vals_in values.now) (moment_of moment.old)) }
{
    for (i, x) in takes.iter().enumerate() {
        if i >= values.len() {
            return Ok(());
        }
        put(moment, x.variable, copy(alloc, &values[i])?);
    }
    Ok(())
}

/// What is assigned has copies of these values, in order.
///
/// Only want of memory is an error.
#[tactic(auto, using(crate::proofs::Puts::put_past))]
pub fn put_targets(
    alloc: Global,
    moment: &mut Moment<'_>,
    targets: &[Target],
    values: &[Value],
) -> Result<(), AllocError>
    ensures { OnOk result (moment_of moment.new ≡ put_each (map target_variable (map target_of targets.now)) (vals_in values.now) (moment_of moment.old)) }
{
    for (i, t) in targets.iter().enumerate() {
        if i >= values.len() {
            return Ok(());
        }
        put(moment, t.placed.variable, copy(alloc, &values[i])?);
    }
    Ok(())
}

/// The type of a variable.
fn variable_type<'a>(around: Around<'a>, x: Variable) -> TypeRef<'a>
    ensures { ref_of result ≡ variable_type (around_of around.entry) (var_of x) }
{
    match x {
        Variable::Global(k) => type_at(around.globals, k),
        Variable::Local(k) => type_at(around.frame, k),
    }
}

/// Each variable gets a chosen value, in order.
///
/// Only want of memory is an error.
pub fn forget(
    around: Around<'_>,
    moment: &mut Moment<'_>,
    xs: &[Variable],
) -> Result<Step, AllocError>
    ensures { IfOk result (λ step. on_said (said_of step) (moment_of moment.new) ≡ forgotten (around_of around.entry) (map var_of xs.now) (moment_of moment.old)) }
{
    for x in xs {
        let t = variable_type(around, *x);
        match take_value(moment, t) {
            None => return Ok(Step::Over(Ending::BadChoice)),
            Some(y) => put(moment, *x, copy(around.alloc, y)?),
        }
    }
    Ok(Step::Goes)
}
