//! Derivations of rewritten rows from literals' own rows.
use crate::equality::{Dep, Solved};
use crate::halves::{
    Half, Halves, forget_all, half_at, is_up, no_halves, put_half, side, want, want_all,
};
use crate::rewrite::Reduced;
use bg_rows::Step;
use bg_simplex::Lit;
use std::alloc::{AllocError, Global};

/// Steps of a derivation, and the literals whose rows they use: step `Path(j)` names that of `uses[j]`. Each half of a solved equality
/// is made once.
#[derive(Drop)]
pub struct Deriver {
    pub steps: Vec<Step>,
    pub uses: Vec<Lit>,
    pub halves: Halves,
}

/// No steps. Equalities that are learned from now on aren't known to it. Only want of memory is an error.
pub fn new_deriver(alloc: Global, s: &Solved) -> Result<Deriver, AllocError> {
    let halves = no_halves(alloc, s)?;
    Ok(Deriver {
        steps: Vec::new(alloc),
        uses: Vec::new(alloc),
        halves,
    })
}

/// No steps again, for another derivation.
pub fn clear(d: &mut Deriver) {
    d.steps.clear();
    d.uses.clear();
    forget_all(&mut d.halves);
}

/// Puts a step behind the others, and answers its number. Only want of memory is an error.
pub fn push_step(d: &mut Deriver, step: Step) -> Result<u128, AllocError> {
    let number = d.steps.len() as u128;
    d.steps.push(step)?;
    Ok(number)
}

/// A literal's own row. Answers the number of its step.
fn push_given(d: &mut Deriver, lit: Lit) -> Result<u128, AllocError> {
    let use_ = d.uses.len() as u128;
    d.uses.push(lit)?;
    push_step(d, Step::Path(use_))
}

/// Adds the halves that are taken here to the row of this number; of the opposite ones where `denied`. Answers the number of the sum.
fn add_halves(
    d: &mut Deriver,
    number: u128,
    deps: &[Dep],
    denied: bool,
) -> Result<u128, AllocError> {
    let mut last = number;
    for dep in deps {
        let half = half_at(&d.halves, dep.equality as usize, is_up(*dep, denied));
        if let (Half::Made(at), Some(times)) = (half, dep.times.checked_abs()) {
            last = push_step(d, Step::Sum(last, 1, at as u128, times))?;
        }
    }
    Ok(last)
}

/// Makes a half, if it is wanted.
fn make_half(d: &mut Deriver, s: &Solved, at: usize, up: bool) -> Result<(), AllocError> {
    if let (Half::Wanted, Some(e)) = (half_at(&d.halves, at, up), s.equalities.get(at)) {
        let (lit, deps) = side(e, up);
        let given = push_given(d, lit)?;
        let _ = add_halves(d, given, deps, false)?;
        let last = d.steps.len().saturating_sub(1);
        put_half(&mut d.halves, at, up, Half::Made(last));
    }
    Ok(())
}

/// Makes the halves that are taken here, and those of which they are made.
fn make_halves(d: &mut Deriver, s: &Solved, deps: &[Dep], denied: bool) -> Result<(), AllocError> {
    let count = want(&mut d.halves, deps, denied);
    want_all(&mut d.halves, s, count);
    for at in 0..count {
        make_half(d, s, at, true)?;
        make_half(d, s, at, false)?;
    }
    Ok(())
}

/// Steps to the reduced row of a literal, tightened, where `r` is that of its atom's row, which the literal denies where `denied` says
/// so. Answers the number of the last step. Takes time for the equalities up to the last that was taken. Only want of memory is an
/// error.
pub fn reduced_row(
    d: &mut Deriver,
    s: &Solved,
    lit: Lit,
    r: &Reduced,
    denied: bool,
) -> Result<u128, AllocError> {
    make_halves(d, s, &r.deps, denied)?;
    let given = push_given(d, lit)?;
    let sum = add_halves(d, given, &r.deps, denied)?;
    if r.divisor > 1 {
        push_step(d, Step::Tight(sum))
    } else {
        Ok(sum)
    }
}

/// The sum of a row, if there is one yet, and so many times row `number`. Answers the number of its step. Only want of memory is an error.
pub fn add_multiple(
    d: &mut Deriver,
    sum: Option<u128>,
    number: u128,
    times: i128,
) -> Result<u128, AllocError> {
    match sum {
        Some(last) => push_step(d, Step::Sum(last, 1, number, times)),
        None if times == 1 => Ok(number),
        None => push_step(d, Step::Sum(number, times, number, 0)),
    }
}
