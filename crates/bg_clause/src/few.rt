//! Clauses of few literals, each literal once.
ghost use Rattle.std.specs.Prelude.{◌≡◌, ◌∷◌, List, not, true, false, IfOk, MatchOption};
ghost use Rattle.bg_formula.specs.declared.atom.Literal as literal;
ghost use Rattle.bg_forms.specs.Forms.{opposite};
ghost use Rattle.bg_clause.specs.Emitted.{is_among, clashes, distinct};
ghost use Rattle.bg_clause.specs.Signs.{sign_among, AreOnce};

use bg_formula::Literal;
use std::alloc::{AllocError, Global};

/// The sign of the first literal of an atom.
fn sign_among(ls: &[Literal], atom: u32) -> Option<bool>
    ensures { result ≡ sign_among ls.now atom }
{
    for l in ls {
        if l.atom == atom {
            return Some(l.sign);
        }
    }
    None
}

/// One literal more in front, unless its denial is there; whether that isn't there.
fn keep(kept: &mut Vec<Literal>, l: Literal) -> Result<bool, AllocError>
    ensures { (ls : List literal.Literal) → AreOnce kept.old.items ls → IfOk result (λ b. (b ≡ not (is_among ls (opposite l))) × (b ≡ true → AreOnce kept.new.items (l ∷ ls))) }
{
    match sign_among(kept, l.atom) {
        None => {
            kept.push(l)?;
            Ok(true)
        }
        Some(sign) => Ok(sign == l.sign),
    }
}

/// Each literal once, unless some literal stands beside its denial. Takes time for each two literals.
pub fn distinct_few(alloc: Global, ls: &[Literal]) -> Result<Option<Vec<Literal>>, AllocError>
    ensures { IfOk result (λ made. MatchOption made (clashes ls.now ≡ true) (λ c. (clashes ls.now ≡ false) × (c.items ≡ distinct ls.now))) }
{
    let mut kept = Vec::with_capacity(alloc, ls.len())?;
    let mut left: &[Literal] = ls;
    while let Some((last, before)) = left.split_last() {
        if !keep(&mut kept, *last)? {
            return Ok(None);
        }
        left = before;
    }
    kept.reverse();
    Ok(Some(kept))
}
