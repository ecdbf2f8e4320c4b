//! A conflict of the rows of a path.
ghost use Rattle.std.specs.Prelude.{◌≡◌, [], true, false, IfOk, IfSome};
ghost use Rattle.bg_rows.specs.Steps.{derives};
ghost use Rattle.bg_formula.specs.Formulas.{formula_of};
ghost use Rattle.bg_cert.specs.Paths.{rows_on};

use crate::ledger::Ledger;
use crate::near::{near, tell};
use crate::note::sync;
use crate::picked::pick;
use crate::renumber::renumbered;
use bg_cert::Trail;
use bg_elim::{Found, refute_or_order};
use bg_formula::Clauses;
use bg_rows::Step;
use std::alloc::{AllocError, Global};

/// How many rows an elimination may make beside those that it is given.
const MORE_ROWS: u32 = 200;

/// A derivation of a false row of the path's rows from those of the decisions with these numbers,
/// which rise, if an elimination of few rows finds one.
fn refuted_by(
    alloc: Global,
    f: &Clauses,
    trail: &Trail,
    numbers: &[usize],
) -> Result<Option<Vec<Step>>, AllocError>
    ensures { IfOk result (λ found. IfSome found (λ steps. derives (rows_on (formula_of f.now).atoms trail.now.decisions.items) [] false steps.items ≡ true)) }
{
    let picked = pick(alloc, &f.atoms, &trail.decisions, numbers)?;
    let rows = picked.rows.len().min(1_000_000) as u32;
    match refute_or_order(alloc, &picked.rows, rows + MORE_ROWS)? {
        Found::Refuted(steps) => Ok(Some(renumbered(alloc, &steps, &picked.numbers)?)),
        _ => Ok(None),
    }
}

/// A derivation of a false row of the path's rows from the nearest ones that are connected with
/// one that came in since the last elimination, if there are such and one is found.
fn refuted_near(
    alloc: Global,
    f: &Clauses,
    trail: &Trail,
    ledger: &mut Ledger,
) -> Result<Option<Vec<Step>>, AllocError>
    ensures { IfOk result (λ found. IfSome found (λ steps. derives (rows_on (formula_of f.now).atoms trail.now.decisions.items) [] false steps.items ≡ true)) }
{
    let numbers = near(alloc, ledger)?;
    if numbers.len() < 2 {
        tell(ledger);
        return Ok(None);
    }
    let found = refuted_by(alloc, f, trail, &numbers)?;
    if found.is_none() {
        tell(ledger);
    }
    Ok(found)
}

/// A derivation of a false row of the path's rows, if one is found from few of them. `from` is the
/// number of decisions at the last call on this path or on one that it goes on from; the ledger is
/// the one of those calls. `whole` asks for an elimination where no two rows clash. Takes time for
/// the decisions from `from` on alone, unless rows clash or `whole` asks and a row came nearer
/// since the last elimination. Only want of memory is an error.
pub fn conflict(
    alloc: Global,
    f: &Clauses,
    trail: &Trail,
    ledger: &mut Ledger,
    from: usize,
    whole: bool,
) -> Result<Option<Vec<Step>>, AllocError>
    ensures { IfOk result (λ found. IfSome found (λ steps. derives (rows_on (formula_of f.now).atoms trail.now.decisions.items) [] false steps.items ≡ true)) }
{
    if let Some(clash) = sync(alloc, f, trail, ledger, from)? {
        return refuted_by(alloc, f, trail, &clash);
    }
    if whole {
        refuted_near(alloc, f, trail, ledger)
    } else {
        Ok(None)
    }
}
