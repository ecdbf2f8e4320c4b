//! Inference of a program's candidates.
ghost use Rattle.std.specs.Prelude.{◌≡◌, ◌<◌, ◌≤◌, ◌∷◌, [], ℕ, Bool, Some, IfOk, map};
ghost use Rattle.bg_ast.specs.Meaning.{meaning_of};
ghost use Rattle.bg_ast.specs.Views.{fun_of, program_of};
ghost use Rattle.bg_check.specs.Verdicts.{IsRight, judged};
ghost use Rattle.bg_check.specs.declared.verdict.Judged as code;
ghost use Rattle.bg_opened.specs.Axioms.{axiom_program, axiom_place};
ghost use Rattle.bg_opened.specs.Openable.{IsOpenable};
ghost use Rattle.bg_expanded.specs.Chains.{most_bodies};
ghost use Rattle.bg_inference.specs.Outcomes.{has_body, IsTrueOutcome};

use crate::outcome::Outcome;
use bg_ast::resolved::{Function, Resolved};
use bg_check::{Effort, Judged, Verdict};
use bg_claims::Gate;
use bg_opened::laws::{
    axioms_have_a_program, opened_programs_are_over_values, written_programs_are_opened,
};
use bg_opening::laws::written_axiom_programs_are_those_of_the_meaning;
use bg_opening::{axiom_program, open_program};
use bg_places::laws::placed_are_places;
use bg_tree::Budget;
use std::alloc::{AllocError, Global};
use std::thread::Threads;

/// How deep bodies of functions are put in.
const DEPTH: usize = 16;

/// The one verdict.
fn only(verdicts: Vec<Vec<Judged>>) -> Option<Judged>
    ensures { (j : code.Judged) → judged verdicts.items ≡ (j ∷ []) ∷ [] → result ≡ Some j }
{
    let mut verdicts = verdicts;
    let mut row = verdicts.pop()?;
    row.pop()
}

/// What is known of the one place of the axioms' own program. Neither its certificate nor its cause is kept.
fn judge_axioms<R: Threads + Sync, G: Gate>(
    rt: &R,
    alloc: Global,
    program: &Resolved,
    budget: Budget,
    gate: &G,
) -> Result<Verdict, AllocError>
    requires openable { IsOpenable most_bodies (meaning_of (program_of program.now)) }
    ensures { IfOk result (λ v. (set : ℕ → Bool) × IsRight budget (axiom_program most_bodies (meaning_of (program_of program.now))) set axiom_place v) }
{
    axioms_have_a_program();
    opened_programs_are_over_values();
    placed_are_places();
    written_axiom_programs_are_those_of_the_meaning();
    let axioms = axiom_program(alloc, DEPTH, program)?;
    let effort = Effort {
        budget,
        keeps: false,
    };
    let outcome = bg_houdini::infer(rt, alloc, &axioms, effort, 1, gate)?;
    match only(outcome.verdicts) {
        Some(judged) => Ok(judged.verdict),
        None => Err(AllocError),
    }
}

/// For each function whether it has a body.
fn bodies_of(alloc: Global, functions: &[Function]) -> Result<Vec<bool>, AllocError>
    ensures { IfOk result (λ made. made.items ≡ map has_body (map fun_of functions.now)) }
{
    let mut made = Vec::new(alloc);
    for function in functions {
        made.push(function.body.is_some())?;
    }
    Ok(made)
}

/// The candidates of a program that hold together, inferred with `workers` workers in threads, and the verdicts on its ordinary places
/// under them. Constants, bodies of functions and axioms are opened first: a constant is a variable that nothing changes, a body stands
/// in the place of each application, 16 deep, and in front of each body it is assumed that unique constants differ, and the axioms
/// (K. R. M. Leino, This is Boogie 2, 2008). Beside that a program of these assumptions alone is judged: whether some interpretation
/// meets them. Where certificates and causes aren't kept each place's are dropped as soon as the place is done; those of the assumptions'
/// own program never are.
///
/// Only want of memory is an error; what `bg_houdini::infer` counts as such counts here too.
pub fn infer<R: Threads + Sync, G: Gate>(
    rt: &R,
    alloc: Global,
    program: Resolved,
    effort: Effort,
    workers: u32,
    gate: &G,
) -> Result<Outcome, AllocError>
    requires openable { IsOpenable most_bodies (meaning_of (program_of program)) }
    requires workers { (0 < workers) × (workers ≤ 16) }
    ensures { IfOk result (IsTrueOutcome effort.keeps effort.budget (program_of program)) }
{
    opened_programs_are_over_values();
    written_programs_are_opened();
    let axioms = judge_axioms(rt, alloc, &program, effort.budget, gate)?;
    let globals = program.globals.len();
    let bodies = bodies_of(alloc, &program.functions)?;
    let opened = open_program(alloc, DEPTH, program)?;
    let judged = bg_houdini::infer(rt, alloc, &opened, effort, workers, gate)?;
    Ok(Outcome {
        opened,
        globals,
        bodies,
        axioms,
        judged,
    })
}
