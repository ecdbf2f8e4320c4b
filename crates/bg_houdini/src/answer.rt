//! What a verdict on a task tells of its candidate.
ghost use Rattle.std.specs.Prelude.{◌≡◌, ℕ, Bool, true, Some, is_some, length, slice_get, IfOk};
ghost use Rattle.bg_ast.specs.Syntax.{Prog};
ghost use Rattle.bg_ast.specs.Execution.{Place};
ghost use Rattle.bg_words.specs.Sets.{Numbers, has};
ghost use Rattle.bg_check.specs.Verdicts.{IsShown, IsBehind, IsRight, has_all};
ghost use Rattle.bg_term_table.specs.Lines.{lines_of};
ghost use Rattle.bg_task.specs.Certified.{HasCertificate};
ghost use Rattle.bg_rounds.specs.Answers.{IsAnswer};
ghost use Rattle.bg_houdini.specs.Tasks.{tasks_of};
ghost use Rattle.bg_houdini.specs.Checks.{AreUsed, IsReason, TaskPasses, TaskFinds};

use crate::Reason;
use crate::sets::set_of;
use bg_cert::laws::accepted_where_used;
use bg_cert::used;
use bg_check::{Cause, Proof, Round, Verdict, kept_of};
use bg_rounds::{Answer, Finding, Kept};
use bg_tree::Budget;
use std::alloc::{AllocError, Global};

/// The certificate where such are kept.
fn kept_if(keeps: bool, proof: Proof) -> Option<Proof>
    ensures shown { (p : Prog) (set : ℕ → Bool) (t : Place) → HasCertificate p set t (lines_of proof.lines.items) proof.cert → IsShown p set t result }
    ensures there { keeps ≡ true → is_some result ≡ true }
{
    if keeps { Some(proof) } else { None }
}

/// The candidates that a certificate behind lines uses, with it where certificates are kept.
fn kept(
    alloc: Global,
    proof: Proof,
    candidates: u32,
    keeps: bool,
) -> Result<Kept<Option<Proof>>, AllocError>
    ensures shown { IfOk result (λ made. (p : Prog) (set : ℕ → Bool) (t : Place) → HasCertificate p set t (lines_of proof.lines.items) proof.cert → IsShown p set t made.proof) }
    ensures there { IfOk result (λ made. keeps ≡ true → is_some made.proof ≡ true) }
    ensures used { IfOk result (λ made. AreUsed candidates proof.cert made.used) }
{
    let truths = used(alloc, &proof.cert.nodes, candidates as usize)?;
    let used = set_of(alloc, &truths, candidates)?;
    Ok(Kept {
        used,
        proof: kept_if(keeps, proof),
    })
}

/// The cause, behind these rounds, as a reason; where causes aren't kept, what is told of it.
fn reason_for(rounds: Vec<Round>, cause: Cause, keeps: bool) -> Reason
    ensures { (budget : Budget) (p : Prog) (set : ℕ → Bool) (t : Place) → IsBehind budget p set t rounds.items cause → IsReason budget p set t true result }
{
    if keeps {
        Reason::Unknown(rounds, cause)
    } else {
        Reason::Left(kept_of(&rounds, &cause))
    }
}

/// A proved task passes by the candidates that its certificate uses; else its candidate has to go, for this reason. Where certificates and
/// causes aren't kept they are dropped here.
pub fn answer(
    alloc: Global,
    verdict: Verdict,
    candidates: u32,
    keeps: bool,
) -> Result<Answer<Option<Proof>, Reason>, AllocError>
    requires { has_all verdict ≡ true }
    ensures { IfOk result (λ made. (budget : Budget) (p : Prog) (k : ℕ) (task : Place) (set : Numbers) → slice_get (tasks_of p) k ≡ Some task → length set ≡ candidates → IsRight budget p (has set) task verdict → IsAnswer (TaskPasses keeps p) (TaskFinds budget p) k set made) }
{
    accepted_where_used();
    match verdict {
        Verdict::Proved(Some(proof)) => {
            Ok(Answer::Passes(kept(alloc, proof, candidates, keeps)?))
        }
        Verdict::Proved(None) => unreachable!(),
        Verdict::Refuted(cex) => Ok(Answer::Drops(Finding {
            unknown: false,
            told: Reason::Refuted(cex),
        })),
        Verdict::Unknown(rounds, cause) => Ok(Answer::Drops(Finding {
            unknown: true,
            told: reason_for(rounds, cause, keeps),
        })),
        Verdict::Left(_) => unreachable!(),
    }
}
