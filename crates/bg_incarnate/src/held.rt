//! The incarnations of variables.
ghost use Rattle.std.specs.Prelude.{◌≡◌, suc, ◌+◌, map, slice_set, IfOk, OnOk};
ghost use Rattle.bg_ast.specs.Meaning.{variable_of};
ghost use Rattle.bg_ast.specs.Views.{var_of, placed_of, target_of};
ghost use Rattle.bg_sense.specs.Variables.{count_from};
ghost use Rattle.bg_blocks.specs.Views.{target_variable};
ghost use Rattle.bg_passive.specs.Incarnations.{hold, hold_all, hold_next, after_vars};
ghost use Rattle.bg_renamed.specs.Views.{env_of};
ghost use Rattle.bg_incarnate.specs.Views.{held_env};

use bg_ast::resolved::{Placed, Target, Variable};
use bg_renamed::Env;
use std::alloc::{AllocError, Global};

/// The incarnation that each variable has now, and the one that each global had at entry.
#[derive(Drop)]
pub struct Held<'b> {
    pub globals: Vec<u32>,
    pub before: &'b [u32],
    pub frame: Vec<u32>,
}

/// What an expression sees.
pub fn seen<'h>(held: &'h Held<'_>) -> Env<'h>
    ensures { env_of result ≡ held_env held.now }
{
    Env {
        globals: &held.globals,
        before: held.before,
        frame: &held.frame,
    }
}

/// The next incarnation. 2^32 of them count as want of memory.
pub fn take_next(next: &mut u32) -> Result<u32, AllocError>
    ensures ok { IfOk result (λ j. j ≡ next.old) }
    ensures more { OnOk result (next.new ≡ suc next.old) }
{
    let j = *next;
    match j.checked_add(1) {
        Some(n) => {
            *next = n;
            Ok(j)
        }
        None => Err(AllocError),
    }
}

/// So many new incarnations.
#[tactic(auto, using(crate::proofs::Walks::count_step))]
pub fn fresh(alloc: Global, next: &mut u32, n: usize) -> Result<Vec<u32>, AllocError>
    ensures made { IfOk result (λ made. made.items ≡ count_from next.old n) }
    ensures more { OnOk result (next.new ≡ next.old + n) }
{
    let mut made = Vec::new(alloc);
    for k in 0..n {
        let j = take_next(next)?;
        made.push(j)?;
    }
    Ok(made)
}

fn set(incarnations: &mut [u32], k: usize, j: u32)
    ensures { incarnations.new ≡ slice_set incarnations.old k j }
{
    if k < incarnations.len() {
        incarnations[k] = j;
    }
}

/// The variable has this incarnation now.
fn hold_one(held: &mut Held<'_>, x: Variable, j: u32)
    ensures { held_env held.new ≡ hold (var_of x) j (held_env held.old) }
{
    match x {
        Variable::Global(k) => set(&mut held.globals, k as usize, j),
        Variable::Local(k) => set(&mut held.frame, k as usize, j),
    }
}

/// Each of the variables has the next incarnation.
pub fn hold_new(held: &mut Held<'_>, next: &mut u32, xs: &[Variable]) -> Result<(), AllocError>
    ensures env { OnOk result (held_env held.new ≡ hold_next (map var_of xs.now) next.old (held_env held.old)) }
    ensures more { OnOk result (next.new ≡ after_vars (map var_of xs.now) next.old) }
{
    for x in xs {
        let j = take_next(next)?;
        hold_one(held, *x, j);
    }
    Ok(())
}

/// What takes results has these incarnations, in order.
#[tactic(auto, using(crate::proofs::Holds::hold_past))]
pub fn hold_taken(held: &mut Held<'_>, takes: &[Placed], made: &[u32])
    ensures { held_env held.new ≡ hold_all (map variable_of (map placed_of takes.now)) made.now (held_env held.old) }
{
    for (i, x) in takes.iter().enumerate() {
        if i >= made.len() {
            return;
        }
        hold_one(held, x.variable, made[i]);
    }
}

/// What is assigned has these incarnations, in order.
#[tactic(auto, using(crate::proofs::Holds::hold_past))]
pub fn hold_targets(held: &mut Held<'_>, targets: &[Target], made: &[u32])
    ensures { held_env held.new ≡ hold_all (map target_variable (map target_of targets.now)) made.now (held_env held.old) }
{
    for (i, t) in targets.iter().enumerate() {
        if i >= made.len() {
            return;
        }
        hold_one(held, t.placed.variable, made[i]);
    }
}
