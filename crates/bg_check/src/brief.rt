//! Verdicts without their certificates and causes.
ghost use Rattle.std.specs.Prelude.{◌≡◌, ℕ, Bool, true};
ghost use Rattle.bg_ast.specs.Syntax.{Prog};
ghost use Rattle.bg_ast.specs.Execution.{Place};
ghost use Rattle.bg_tree.specs.declared.outcome.Budget.{Budget};
ghost use Rattle.bg_check.specs.Verdicts.{IsRight, has_all};

use crate::kept::kept_of;
use crate::verdict::Verdict;

/// The verdict without its certificate, and of its cause what is told alone. It is right where the verdict is: there is a certificate, or
/// a cause of which this is told.
pub fn in_brief(verdict: Verdict) -> Verdict
    ensures { (budget : Budget) (p : Prog) (set : ℕ → Bool) (t : Place) → IsRight budget p set t verdict → IsRight budget p set t result }
{
    match verdict {
        Verdict::Proved(_) => Verdict::Proved(None),
        Verdict::Refuted(cex) => Verdict::Refuted(cex),
        Verdict::Unknown(rounds, cause) => Verdict::Left(kept_of(&rounds, &cause)),
        Verdict::Left(kept) => Verdict::Left(kept),
    }
}

/// The verdict as it is where certificates and causes are kept, or in brief.
pub fn kept_if(keeps: bool, verdict: Verdict) -> Verdict
    ensures right { (budget : Budget) (p : Prog) (set : ℕ → Bool) (t : Place) → IsRight budget p set t verdict → IsRight budget p set t result }
    ensures whole { keeps ≡ true → has_all verdict ≡ true → has_all result ≡ true }
{
    if keeps { verdict } else { in_brief(verdict) }
}
