//! The start of an elimination.
ghost use Rattle.std.specs.Prelude.{◌≡◌, ◌≤◌, [], map, IfOk, OnOk, length};
ghost use Rattle.bg_rows.specs.Rows.{row_of};
ghost use Rattle.bg_elim.specs.Work.{WorkOf, work_of, IsIndexed, Holds, EndsAs, IsStarted};

use crate::columns::columns_of;
use crate::order::Reason;
use crate::take::take_given;
use crate::work::{Round, Taken, Work};
use bg_rows::Row;
use std::alloc::{AllocError, Global};
use std::collections::BTreeMap;

/// Nothing is kept, and the variables have their places.
pub fn empty(alloc: Global, variables: &[u32]) -> Result<Work, AllocError>
    ensures indexed { IfOk result (λ work. IsIndexed work) }
    ensures work { IfOk result (λ work. work_of work ≡ record { order = []; reasons = []; rows = []; live = [] }) }
{
    let columns = columns_of(alloc, variables)?;
    Ok(Work {
        order: Vec::new(alloc),
        reasons: Vec::new(alloc),
        rows: Vec::new(alloc),
        at: BTreeMap::new(alloc),
        live: Vec::new(alloc),
        columns,
    })
}

/// Takes in the given rows.
pub fn take_all(
    alloc: Global,
    given: &[Row],
    work: &mut Work,
    budget: u32,
) -> Result<Round, AllocError>
    requires indexed { IsIndexed work.old }
    requires work { work_of work.old ≡ record { order = []; reasons = []; rows = []; live = [] } }
    ensures indexed { OnOk result (IsIndexed work.new) }
    ensures room { OnOk result (length (work_of work.new).rows ≤ budget) }
    ensures order { OnOk result ((work_of work.new).order ≡ []) }
    ensures holds { OnOk result (Holds (map row_of given.now) (work_of work.new)) }
    ensures ends { IfOk result (λ r. EndsAs (map row_of given.now) budget (work_of work.new) (IsStarted (map row_of given.now) (work_of work.new)) r) }
{
    for j in 0..given.len() {
        match take_given(alloc, work, &given[j], j, budget)? {
            Taken::Done => {}
            Taken::False => return Ok(Round::RefutedBy(Reason::Given(j))),
            Taken::Full => return Ok(Round::Filled),
        }
    }
    Ok(Round::Whole)
}
