//! Clauses that say what a literal is worth by others.
ghost use Rattle.std.specs.Prelude.{◌≡◌, [], ◌∷◌, ◌++◌, OnOk};
ghost use Rattle.bg_forms.specs.Forms.{opposite};
ghost use Rattle.bg_clause.specs.Emitted.{clause_of, equal_clauses, both_clauses, same_clauses};
ghost use Rattle.bg_clause.specs.Views.{clauses_in};

use crate::clause::add;
use crate::naming::alone;
use bg_forms::opposite;
use bg_formula::Literal;
use std::alloc::{AllocError, Global};

/// One of the literals or of these two is true.
fn add_two(
    alloc: Global,
    out: &mut Vec<Vec<Literal>>,
    literals: &[Literal],
    k: Literal,
    l: Literal,
) -> Result<(), AllocError>
    ensures { OnOk result (clauses_in out.new.items ≡ clauses_in out.old.items ++ clause_of (literals.now ++ k ∷ l ∷ [])) }
{
    let mut more = literals.to_vec(alloc)?;
    more.push(k)?;
    more.push(l)?;
    add(alloc, out, more.as_slice())
}

/// One of the literals is true, or these two are worth the same.
#[tactic(auto, using(crate::proofs::Emits::emit_forms))]
pub fn add_equal(
    alloc: Global,
    out: &mut Vec<Vec<Literal>>,
    literals: &[Literal],
    k: Literal,
    l: Literal,
) -> Result<(), AllocError>
    ensures { OnOk result (clauses_in out.new.items ≡ clauses_in out.old.items ++ equal_clauses literals.now k l) }
{
    add_two(alloc, out, literals, opposite(k), l)?;
    add_two(alloc, out, literals, k, opposite(l))
}

/// The first literal is worth what both others are worth.
#[tactic(auto, using(crate::proofs::Emits::emit_forms))]
pub fn add_both(
    alloc: Global,
    out: &mut Vec<Vec<Literal>>,
    k: Literal,
    l: Literal,
    m: Literal,
) -> Result<(), AllocError>
    ensures { OnOk result (clauses_in out.new.items ≡ clauses_in out.old.items ++ both_clauses k l m) }
{
    add_two(alloc, out, &[], opposite(k), l)?;
    add_two(alloc, out, &[], opposite(k), m)?;
    let first = alone(alloc, k)?;
    add_two(alloc, out, first.as_slice(), opposite(l), opposite(m))
}

/// The first literal is worth whether the others are worth the same.
#[tactic(auto, using(crate::proofs::Emits::emit_forms))]
pub fn add_same(
    alloc: Global,
    out: &mut Vec<Vec<Literal>>,
    k: Literal,
    l: Literal,
    m: Literal,
) -> Result<(), AllocError>
    ensures { OnOk result (clauses_in out.new.items ≡ clauses_in out.old.items ++ same_clauses k l m) }
{
    let first = alone(alloc, opposite(k))?;
    add_equal(alloc, out, first.as_slice(), l, m)?;
    let second = alone(alloc, k)?;
    add_equal(alloc, out, second.as_slice(), l, opposite(m))
}
