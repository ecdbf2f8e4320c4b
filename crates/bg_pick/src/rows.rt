//! The rows of a path: all clauses, and for each decision those that it touches.
ghost use Rattle.std.specs.Prelude.{◌≡◌};
ghost use Rattle.bg_pick.specs.Index.{hints_at, list_of};
ghost use Rattle.bg_pick.specs.Marks.{row_at};

use crate::hint::Hint;
use crate::index::Index;
use bg_cert::{Decision, Trail};

pub fn hints_at(lists: &[Vec<Hint>], a: usize) -> &[Hint]
    ensures { result.now ≡ hints_at lists.now a }
{
    match lists.get(a) {
        Some(row) => row.as_slice(),
        None => &[],
    }
}

/// The row of this number; empty where the path has fewer.
#[tactic(auto, using(bg_cert::proofs::Places::at_there, bg_cert::proofs::Places::at_missing))]
pub fn row_at<'a>(i: &'a Index, trail: &Trail, row: usize) -> &'a [Hint]
    ensures { result.now ≡ row_at i.now trail.now.decisions.items row }
{
    if row == 0 {
        return &i.start;
    }
    if row > trail.decisions.len() {
        return &[];
    }
    match trail.decisions[row - 1] {
        Decision::Atom(a, true) => hints_at(&i.no, a),
        Decision::Atom(a, false) => hints_at(&i.yes, a),
        Decision::AtMost(_, _, _) => &[],
    }
}
