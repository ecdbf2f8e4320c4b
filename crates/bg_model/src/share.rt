//! What commands have of their block's passive commands and of the incarnations.
ghost use Rattle.std.specs.Prelude.{◌≡◌, ◌+◌, ℕ, length, min, IfOk};
ghost use Rattle.bg_ast.specs.Views.{call_of, proc_of};
ghost use Rattle.bg_ast.specs.Execution.{Spot};
ghost use Rattle.bg_ast.specs.Resolved.{Program};
ghost use Rattle.bg_flow.specs.Core.{demands, sayings, Perform};
ghost use Rattle.bg_blocks.specs.Views.{clauses_in, cmd_of};
ghost use Rattle.bg_incarnate.specs.Views.{is_kept_by, plan_in};
ghost use Rattle.bg_model.specs.Shares.{IsShare, plain, assigned};

use bg_ast::resolved::{Call, Clause, Procedure, Variable};
use bg_blocks::{Cmd, Kept};
use std::alloc::AllocError;

/// So many passive commands; and of the command's incarnations, behind so many first ones, so many whose values are chosen.
#[derive(Clone, Copy)]
pub struct Share {
    pub cmds: usize,
    pub skips: usize,
    pub chooses: usize,
}

/// The sum; more than a number holds are more than memory holds.
pub fn add(a: usize, b: usize) -> Result<usize, AllocError>
    ensures { IfOk result (λ n. n ≡ a + b) }
{
    match a.checked_add(b) {
        Some(n) => Ok(n),
        None => Err(AllocError),
    }
}

fn is_kept(which: Kept, is_free: bool) -> bool
    ensures { result ≡ is_kept_by which is_free }
{
    match which {
        Kept::Each => true,
        Kept::Checked => !is_free,
        Kept::Free => is_free,
    }
}

/// How many of the clauses are checked.
fn checks(clauses: &[Clause]) -> usize
    ensures { (spot : ℕ → Spot) → length (demands spot (clauses_in clauses.now)) ≡ result }
{
    let mut n = 0;
    for k in clauses {
        if !k.is_free {
            n += 1;
        }
    }
    n
}

/// How many of the clauses are assumed.
fn assumes(which: Kept, clauses: &[Clause]) -> usize
    ensures { length (sayings (is_kept_by which) (clauses_in clauses.now)) ≡ result }
{
    let mut n = 0;
    for k in clauses {
        if is_kept(which, k.is_free) {
            n += 1;
        }
    }
    n
}

/// So many passive commands, and no incarnation.
fn one(cmds: usize) -> Share
    ensures { result ≡ plain cmds }
{
    Share {
        cmds,
        skips: 0,
        chooses: 0,
    }
}

/// An assignment: an incarnation for each target that has a value.
fn assign(targets: usize, values: usize) -> Share
    ensures { result ≡ assigned (min targets values) }
{
    let n = targets.min(values);
    Share {
        cmds: n,
        skips: n,
        chooses: 0,
    }
}

/// A call: an incarnation for each argument, and then one for each global that is modified and each result.
fn call(k: &Call, q: &Procedure, xs: &[Variable]) -> Result<Share, AllocError>
    ensures { IfOk result (λ share. (p : Program) → IsShare (Perform (plan_in p (call_of k.now) (proc_of q.now) xs.now)) share) }
{
    let needs = add(k.args.len(), checks(&q.requires_))?;
    Ok(Share {
        cmds: add(needs, q.ensures_.len())?,
        skips: k.args.len(),
        chooses: add(xs.len(), q.results.len())?,
    })
}

/// What a command has of its block's passive commands and of the incarnations.
pub fn share_of(k: &Cmd<'_>) -> Result<Share, AllocError>
    ensures { IfOk result (λ share. (p : Program) → IsShare (cmd_of p k.now) share) }
{
    match k {
        Cmd::Check(_, ks) => Ok(one(checks(ks))),
        Cmd::Suppose(which, ks) => Ok(one(assumes(*which, ks))),
        Cmd::Assume(_) => Ok(one(1)),
        Cmd::Forget(xs) => Ok(Share {
            cmds: 0,
            skips: 0,
            chooses: xs.len(),
        }),
        Cmd::Put(ts, es) => Ok(assign(ts.len(), es.len())),
        Cmd::Perform(k, q, xs) => call(k, q, xs),
        Cmd::Finish => Ok(one(1)),
    }
}
