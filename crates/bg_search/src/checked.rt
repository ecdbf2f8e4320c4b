//! Proposals that are checked before they count.
ghost use Rattle.std.specs.Prelude.{◌≡◌, ℕ, ℤ, Bool, true, IfOk, IfSome};
ghost use Rattle.bg_point.specs.Points.{target_of};
ghost use Rattle.bg_formula.specs.Formulas.{Formula, formula_of, is_whole};
ghost use Rattle.bg_cert.specs.Walks.{has};
ghost use Rattle.bg_tree.specs.declared.outcome.Budget.{Budget};
ghost use Rattle.bg_tree.specs.Trees.{IsOutcome};
ghost use Rattle.bg_search.specs.Searched.{IsSearched, has_cert};

use bg_cert::{Cert, accepts};
use bg_formula::Clauses;
use bg_learn::{Limits, Proposal, propose};
use bg_tree::{Budget, Leaf, Outcome, Values, Why, follow};
use std::alloc::{AllocError, Global};

/// What is asked of a search: the targets of the terms' values, its budget, and whether a certificate is kept.
#[derive(Clone, Copy)]
pub struct Aim<'a> {
    pub targets: &'a [i128],
    pub budget: Budget,
    pub keeps: bool,
}

/// What the search finds: that there is a certificate, which the checker accepts, with the certificate where it is kept; a complete leaf;
/// or why neither was found.
#[derive(Drop)]
pub enum Searched {
    Closed(Option<Cert>),
    Leaf(Leaf),
    Unknown(Why),
}

/// What the tree search finds, whose certificate is kept.
fn searched_of(outcome: Outcome) -> Searched
    ensures searched { (targets : ℕ → ℤ) (f : Formula) (set : ℕ → Bool) (budget : Budget) → IsOutcome targets f set budget outcome → IsSearched targets f set budget result }
    ensures kept { has_cert result ≡ true }
{
    match outcome {
        Outcome::Closed(cert) => Searched::Closed(Some(cert)),
        Outcome::Leaf(leaf) => Searched::Leaf(leaf),
        Outcome::Unknown(why) => Searched::Unknown(why),
    }
}

/// The certificate, where the checker accepts it.
fn accepted(
    alloc: Global,
    f: &Clauses,
    set: &[bool],
    aim: Aim<'_>,
    cert: Cert,
) -> Result<Option<Searched>, AllocError>
    ensures searched { IfOk result (λ found. IfSome found (λ s. IsSearched (target_of aim.entry.targets.now) (formula_of f.now) (has set.now) aim.entry.budget s)) }
    ensures kept { IfOk result (λ found. IfSome found (λ s. has_cert s ≡ true)) }
{
    if accepts(alloc, f, set, &cert)? {
        Ok(Some(Searched::Closed(Some(cert))))
    } else {
        Ok(None)
    }
}

/// The complete leaf that a walk along values of the atoms comes to, if it comes to one.
fn followed(
    alloc: Global,
    f: &Clauses,
    set: &[bool],
    aim: Aim<'_>,
    atoms: &[bool],
) -> Result<Option<Searched>, AllocError>
    requires { is_whole (formula_of f.now) ≡ true }
    ensures searched { IfOk result (λ found. IfSome found (λ s. IsSearched (target_of aim.entry.targets.now) (formula_of f.now) (has set.now) aim.entry.budget s)) }
    ensures kept { IfOk result (λ found. IfSome found (λ s. has_cert s ≡ true)) }
{
    let values = Values { atoms, terms: &[] };
    match follow(alloc, f, set, aim.targets, aim.budget, values)? {
        Some(outcome) => Ok(Some(searched_of(outcome))),
        None => Ok(None),
    }
}

/// What the engine proposes, where it holds: a certificate is checked, if that wasn't done while it was written, and values are followed
/// down to a complete leaf.
fn proposed(
    alloc: Global,
    f: &Clauses,
    set: &[bool],
    aim: Aim<'_>,
) -> Result<Option<Searched>, AllocError>
    requires { is_whole (formula_of f.now) ≡ true }
    ensures searched { IfOk result (λ found. IfSome found (λ s. IsSearched (target_of aim.entry.targets.now) (formula_of f.now) (has set.now) aim.entry.budget s)) }
    ensures kept { IfOk result (λ found. IfSome found (λ s. aim.entry.keeps ≡ true → has_cert s ≡ true)) }
{
    let asked = bg_learn::Aim {
        targets: aim.targets,
        limits: Limits {
            nodes: aim.budget.nodes as usize,
            rows: aim.budget.rows as usize,
        },
        keeps: aim.keeps,
    };
    match propose(alloc, f, set, asked)? {
        Proposal::Proof(cert) => accepted(alloc, f, set, aim, cert),
        Proposal::Shown => Ok(Some(Searched::Closed(None))),
        Proposal::Values(atoms) => followed(alloc, f, set, aim, &atoms),
        Proposal::Nothing => Ok(None),
    }
}

/// Searches the clauses with the units of the set: for a certificate, for a point at which they hold, or until a budget is used up or
/// an operation leaves 128 bits. An engine that learns clauses proposes first, within the budget; what it proposes is checked, and where
/// that refuses it, or it knows nothing, the tree search answers. A point has each term as near to its target as may be: the targets
/// are any numbers of 128 bits, one for each term by its number, 0 for a term behind the list's end. Where certificates are kept the
/// answer has the one that it claims. Where they aren't, the engine's is checked while it is written, so that it is never there as a
/// whole; the tree search's is there all the same.
///
/// Only want of memory is an error.
pub fn search(
    alloc: Global,
    f: &Clauses,
    set: &[bool],
    aim: Aim<'_>,
) -> Result<Searched, AllocError>
    requires { is_whole (formula_of f.now) ≡ true }
    ensures searched { IfOk result (λ s. IsSearched (target_of aim.entry.targets.now) (formula_of f.now) (has set.now) aim.entry.budget s) }
    ensures kept { IfOk result (λ s. aim.entry.keeps ≡ true → has_cert s ≡ true) }
{
    match proposed(alloc, f, set, aim)? {
        Some(found) => Ok(found),
        None => {
            let outcome = bg_tree::search(alloc, f, set, aim.targets, aim.budget)?;
            Ok(searched_of(outcome))
        }
    }
}
