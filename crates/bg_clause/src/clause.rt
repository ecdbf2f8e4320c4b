//! Clauses with each literal once.
ghost use Rattle.std.specs.Prelude.{◌≡◌, ◌++◌, [], ◌∷◌, List, not, true, false, IfOk, OnOk, MatchOption};
ghost use Rattle.bg_formula.specs.declared.atom.Literal as literal;
ghost use Rattle.bg_forms.specs.Forms.{opposite};
ghost use Rattle.bg_clause.specs.Emitted.{is_among, clashes, distinct, clause_of};
ghost use Rattle.bg_clause.specs.Signs.{IsOnce};
ghost use Rattle.bg_clause.specs.Views.{clauses_in};

use crate::few::distinct_few;
use crate::signs::{Signs, no_signs, note, sign_of};
use bg_formula::Literal;
use std::alloc::{AllocError, Global};

/// How many literals are gone through without a map of their atoms.
const FEW: usize = 12;

/// What was gone through, from the last literal back: each literal once, and the signs of their atoms.
#[derive(Drop)]
pub struct Once {
    signs: Signs,
    kept: Vec<Literal>,
}

/// Nothing yet.
fn nothing(alloc: Global) -> Once
    ensures { IsOnce result [] }
{
    Once {
        signs: no_signs(alloc),
        kept: Vec::new(alloc),
    }
}

/// One literal more in front, unless its denial is there; whether that isn't there.
fn keep(once: &mut Once, l: Literal) -> Result<bool, AllocError>
    ensures { (ls : List literal.Literal) → IsOnce once.old ls → IfOk result (λ b. (b ≡ not (is_among ls (opposite l))) × (b ≡ true → IsOnce once.new (l ∷ ls))) }
{
    match sign_of(&once.signs, l.atom) {
        None => {
            note(&mut once.signs, l)?;
            once.kept.push(l)?;
            Ok(true)
        }
        Some(sign) => Ok(sign == l.sign),
    }
}

/// Each literal once, unless some literal stands beside its denial.
fn distinct_many(alloc: Global, ls: &[Literal]) -> Result<Option<Vec<Literal>>, AllocError>
    ensures { IfOk result (λ made. MatchOption made (clashes ls.now ≡ true) (λ c. (clashes ls.now ≡ false) × (c.items ≡ distinct ls.now))) }
{
    let mut once = nothing(alloc);
    let mut left: &[Literal] = ls;
    while let Some((last, before)) = left.split_last() {
        if !keep(&mut once, *last)? {
            return Ok(None);
        }
        left = before;
    }
    let mut kept = once.kept;
    kept.reverse();
    Ok(Some(kept))
}

/// Each literal once, unless some literal stands beside its denial.
fn distinct(alloc: Global, ls: &[Literal]) -> Result<Option<Vec<Literal>>, AllocError>
    ensures { IfOk result (λ made. MatchOption made (clashes ls.now ≡ true) (λ c. (clashes ls.now ≡ false) × (c.items ≡ distinct ls.now))) }
{
    if ls.len() <= FEW {
        distinct_few(alloc, ls)
    } else {
        distinct_many(alloc, ls)
    }
}

/// One clause more, if it says anything.
pub fn add(alloc: Global, out: &mut Vec<Vec<Literal>>, ls: &[Literal]) -> Result<(), AllocError>
    ensures { OnOk result (clauses_in out.new.items ≡ clauses_in out.old.items ++ clause_of ls.now) }
{
    if let Some(c) = distinct(alloc, ls)? {
        out.push(c)?;
    }
    Ok(())
}
