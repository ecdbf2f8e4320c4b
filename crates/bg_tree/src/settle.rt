//! What the rows of a path tell: elimination in the manner of Fourier and Motzkin, then a point read off its order.
ghost use Rattle.std.specs.Prelude.{◌≡◌, [], true, false, IfOk, IfSome, map, List};
ghost use Rattle.bg_rows.specs.Rows.{row_of, RowOf};
ghost use Rattle.bg_rows.specs.Steps.{derives};
ghost use Rattle.bg_elim.specs.Answers.{SolvedBy};
ghost use Rattle.bg_point.specs.Points.{target_of};
ghost use Rattle.bg_formula.specs.Formulas.{formula_of, is_whole};
ghost use Rattle.bg_cert.specs.Paths.{rows_on};
ghost use Rattle.bg_tree.specs.Once.{bounds_in};
ghost use Rattle.bg_tree.specs.Ends.{IsPlacedEnd, IsEnd};

use crate::outcome::{Beyond, End, Halt};
use crate::part::Kept;
use bg_cert::{Trail, rows_on};
use bg_conflict::{Ledger, conflict};
use bg_elim::{Found, Order, Stop, refute_or_order};
use bg_formula::Clauses;
use bg_pick::Mark;
use bg_point::{Placed, point};
use bg_rows::{Row, Step};
use std::alloc::{AllocError, Global};

/// A point near the targets, of an order that solves the rows, or why there is none.
fn placed(alloc: Global, given: &[Row], targets: &[i128], order: Order) -> Result<End, AllocError>
    requires { SolvedBy (map row_of given.now) order }
    ensures { IfOk result (λ end. IsPlacedEnd (target_of targets.now) (map row_of given.now) end) }
{
    match point(alloc, &order, targets)? {
        Placed::Point(spots) => Ok(End::Halted(Halt::Point(order, spots))),
        Placed::Split(spots, gap) => Ok(End::Split(Kept { order, spots, gap })),
        Placed::Unknown(spots, far) => Ok(End::Halted(Halt::Range(Beyond::Value(
            order, spots, far,
        )))),
    }
}

/// What the rows of a path tell that decides every atom, where as many different rows may be kept
/// as the budget says.
pub fn settle(
    alloc: Global,
    f: &Clauses,
    targets: &[i128],
    trail: &Trail,
    budget: u32,
) -> Result<End, AllocError>
    requires whole { is_whole (formula_of f.now) ≡ true }
    requires bounds { bounds_in (formula_of f.now).terms trail.now.decisions.items ≡ true }
    ensures { IfOk result (λ end. IsEnd (target_of targets.now) (rows_on (formula_of f.now).atoms trail.now.decisions.items) (formula_of f.now).terms budget end) }
{
    let given = rows_on(alloc, &f.atoms, &trail.decisions)?;
    match refute_or_order(alloc, &given, budget)? {
        Found::Refuted(steps) => Ok(End::Refuted(steps)),
        Found::Solvable(order) => {
            let end = placed(alloc, &given, targets, order)?;
            Ok(end)
        }
        Found::Unknown(Stop::Rows(order)) => Ok(End::Halted(Halt::Rows(order))),
        Found::Unknown(Stop::Range(order, further)) => {
            Ok(End::Halted(Halt::Range(Beyond::Elimination(order, further))))
        }
    }
}

/// A derivation of a false row of the path's rows, where one is found from few of them: by two rows
/// that clash, and where the `whole` is asked for by an elimination. Of the mark it changes what
/// says how many decisions were looked at.
pub fn refuted(
    alloc: Global,
    f: &Clauses,
    trail: &Trail,
    ledger: &mut Ledger,
    mark: &mut Mark,
    whole: bool,
) -> Result<Option<Vec<Step>>, AllocError>
    ensures derives { IfOk result (λ found. IfSome found (λ steps. derives (rows_on (formula_of f.now).atoms trail.now.decisions.items) [] false steps.items ≡ true)) }
    ensures row { mark.new.row ≡ mark.old.row }
    ensures place { mark.new.place ≡ mark.old.place }
    ensures clause { mark.new.clause ≡ mark.old.clause }
    ensures atom { mark.new.atom ≡ mark.old.atom }
{
    let from = mark.asked;
    mark.asked = trail.decisions.len();
    conflict(alloc, f, trail, ledger, from, whole)
}
