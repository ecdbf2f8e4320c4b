//! Why a place is proved.
ghost use Rattle.std.specs.Prelude.{◌≡◌, ℕ, Bool, is_some};
ghost use Rattle.bg_ast.specs.Syntax.{Prog};
ghost use Rattle.bg_ast.specs.Execution.{Place};
ghost use Rattle.bg_term_table.specs.Lines.{lines_of};
ghost use Rattle.bg_check.specs.Found.{IsShownBehind};
ghost use Rattle.bg_check.specs.Verdicts.{IsShown};

use bg_cert::Cert;
use bg_term_table::Line;

/// A certificate of the clauses of a place behind lines, and these lines.
#[derive(Drop)]
pub struct Proof {
    pub lines: Vec<Line>,
    pub cert: Cert,
}

/// Why a place is proved behind lines, where the certificate is kept.
pub fn proof_of(lines: Vec<Line>, cert: Option<Cert>) -> Option<Proof>
    ensures kept { is_some result ≡ is_some cert }
    ensures shown { (p : Prog) (set : ℕ → Bool) (t : Place) → IsShownBehind p set t (lines_of lines.items) cert → IsShown p set t result }
{
    match cert {
        None => None,
        Some(cert) => Some(Proof { lines, cert }),
    }
}
