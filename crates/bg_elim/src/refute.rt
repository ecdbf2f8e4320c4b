//! Reasons are written as the steps of a derivation.
ghost use Rattle.std.specs.Prelude.{◌≡◌, [], true, false, List, Some, map, IfOk};
ghost use Rattle.bg_rows.specs.Rows.{RowOf, row_of};
ghost use Rattle.bg_rows.specs.declared.step.Step.TheVariants.{Sum};
ghost use Rattle.bg_rows.specs.Steps.{derives};
ghost use Rattle.bg_elim.specs.declared.order.Reason.TheVariants.{Eliminated};
ghost use Rattle.bg_elim.specs.Work.{work_of, Holds, FalseOf, IsStep, StepsFor};

use crate::order::Reason;
use crate::work::Work;
use bg_rows::{Refused, Step, are_opposite, eliminate_by};
use std::alloc::{AllocError, Global};

/// The step of a sum.
fn sum_of(i: usize, j: usize, made: &bg_rows::Eliminated) -> Step
    ensures { result ≡ Sum i made.now.first j made.now.second }
{
    let first = made.first;
    let second = made.second;
    Step::Sum(i as u128, first, j as u128, second)
}

/// The sum that eliminates a variable from two kept rows. Where there is none, the step is of no
/// use, and it isn't asked for.
fn sum_step(alloc: Global, work: &Work, i: usize, j: usize, x: u32) -> Result<Step, AllocError>
    ensures { IfOk result (λ s. IsStep (work_of work.now) (Eliminated i j x) s) }
{
    if i >= work.rows.len() {
        return Ok(Step::Path(0));
    }
    if j >= work.rows.len() {
        return Ok(Step::Path(0));
    }
    let up = &work.rows[i];
    let low = &work.rows[j];
    if !are_opposite(up, low, x) {
        return Ok(Step::Path(0));
    }
    match eliminate_by(alloc, up, low, x) {
        Ok(made) => Ok(sum_of(i, j, &made)),
        Err(Refused::Range(_)) => Ok(Step::Path(0)),
        Err(Refused::Memory) => Err(AllocError),
    }
}

/// The step that makes the row that a reason makes.
fn step_of(alloc: Global, work: &Work, reason: Reason) -> Result<Step, AllocError>
    ensures { IfOk result (λ s. IsStep (work_of work.now) reason s) }
{
    match reason {
        Reason::Given(j) => Ok(Step::Path(j as u128)),
        Reason::Tightened(i) => Ok(Step::Tight(i as u128)),
        Reason::Eliminated(i, j, x) => sum_step(alloc, work, i, j, x),
    }
}

/// The derivation of the false row that a reason makes of the kept ones.
pub fn refutation(alloc: Global, work: &Work, reason: Reason) -> Result<Vec<Step>, AllocError>
    ensures { IfOk result (λ steps. (given : List RowOf) → Holds given (work_of work.now) → FalseOf given (work_of work.now) reason → derives given [] false steps.items ≡ true) }
{
    let mut steps = Vec::new(alloc);
    for r in &work.reasons {
        steps.push(step_of(alloc, work, *r)?)?;
    }
    steps.push(step_of(alloc, work, reason)?)?;
    Ok(steps)
}
