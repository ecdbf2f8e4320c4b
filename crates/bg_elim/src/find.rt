//! Rows are refuted, or ordered, or elimination stops.
ghost use Rattle.std.specs.Prelude.{◌≡◌, map, IfOk};
ghost use Rattle.bg_rows.specs.Rows.{row_of};
ghost use Rattle.bg_elim.specs.Answers.{SolvedBy, IsFound};
ghost use Rattle.bg_elim.specs.Work.{work_of, Holds, EndsAs, SolvesAs};

use crate::every::eliminate_all;
use crate::order::{Found, Order, Stop};
use crate::refute::refutation;
use crate::start::{empty, take_all};
use crate::variables::variables;
use crate::work::{Round, Work};
use bg_rows::Row;
use std::alloc::{AllocError, Global};

/// What is kept, as an order.
fn order_of(work: Work) -> Order
    ensures variables { result.variables.items ≡ (work_of work).order }
    ensures reasons { result.reasons.items ≡ (work_of work).reasons }
    ensures rows { map row_of result.rows.items ≡ (work_of work).rows }
{
    let Work {
        order,
        reasons,
        rows,
        ..
    } = work;
    Order {
        variables: order,
        reasons,
        rows,
    }
}

/// The answer that an elimination ends with.
fn found(
    alloc: Global,
    given: &[Row],
    work: Work,
    round: Round,
    budget: u32,
) -> Result<Found, AllocError>
    requires holds { Holds (map row_of given.now) (work_of work) }
    requires ends { EndsAs (map row_of given.now) budget (work_of work) (SolvesAs (map row_of given.now) (work_of work)) round }
    ensures { IfOk result (λ f. IsFound (map row_of given.now) budget f) }
{
    match round {
        Round::Whole => Ok(Found::Solvable(order_of(work))),
        Round::RefutedBy(reason) => Ok(Found::Refuted(refutation(alloc, &work, reason)?)),
        Round::Filled => Ok(Found::Unknown(Stop::Rows(order_of(work)))),
        Round::Left(further) => Ok(Found::Unknown(Stop::Range(order_of(work), further))),
    }
}

/// A derivation of a false row, or an order of the variables that solves the rows; or why neither
/// was found: `budget` pairwise different rows were kept, or an operation of an elimination leaves
/// 128 bits. Variables are eliminated in the manner of Fourier and Motzkin, each time one of which
/// few pairs of rows arise, and first one of which no whole numbers are lost (Pugh, The Omega test,
/// 1991); rows are divided by what their coefficients share, and a row that another one of the same
/// coefficients implies isn't kept unless it was given, and isn't paired.
pub fn refute_or_order(alloc: Global, rows: &[Row], budget: u32) -> Result<Found, AllocError>
    ensures { IfOk result (λ f. IsFound (map row_of rows.now) budget f) }
{
    let all = variables(alloc, rows)?;
    let mut work = empty(alloc, &all)?;
    match take_all(alloc, rows, &mut work, budget)? {
        Round::Whole => {
            let round = eliminate_all(alloc, &mut work, &all, budget)?;
            found(alloc, rows, work, round, budget)
        }
        round => found(alloc, rows, work, round, budget),
    }
}
