//! What is known of the ordinary places of an implementation.
ghost use Rattle.std.specs.Prelude.{◌≡◌, true, Some, map, slice_get, IfOk};
ghost use Rattle.bg_ast.specs.Resolved as r;
ghost use Rattle.bg_ast.specs.Meaning.{meaning_of};
ghost use Rattle.bg_ast.specs.Views.{program_of};
ghost use Rattle.bg_sense.specs.Typed.{IsTyped};
ghost use Rattle.bg_sense.specs.Resolved.{IsResolved};
ghost use Rattle.bg_places.specs.Views.{placed_of, placed_in};
ghost use Rattle.bg_cert.specs.Walks.{has};
ghost use Rattle.bg_fits.specs.Valued.{is_over_values};
ghost use Rattle.bg_task.specs.Asked.{IsAsked, AreAsked};
ghost use Rattle.bg_task.specs.Prepared.{IsPrepared, ArePrepared};
ghost use Rattle.bg_check.specs.Verdicts.{IsRight, placed_at, AreRightAt, AreRightOf, has_all, have_all};

use crate::brief::kept_if;
use crate::effort::Effort;
use crate::ordinary::ordinary_places;
use crate::rounds::check_place;
use crate::tries::{Tries, some_tries};
use crate::verdict::Judged;
use bg_ast::resolved::Resolved;
use bg_places::Place;
use bg_places::laws::placed_are_places;
use bg_task::{Prepared, Question};
use std::alloc::{AllocError, Global};

/// What is known of a place, whose certificate or cause is dropped here where such aren't kept; whether first tries are worth while is
/// handed on.
fn judge(
    alloc: Global,
    question: Question<'_, '_>,
    effort: Effort,
    tries: &mut Tries,
) -> Result<Judged, AllocError>
    requires typed { IsTyped (meaning_of (program_of question.program.now)) }
    requires scalars { is_over_values (meaning_of (program_of question.program.now)) ≡ true }
    requires prepared { IsPrepared (program_of question.program.now) question.place.now.implementation question.prepared.now }
    requires asked { IsAsked (meaning_of (program_of question.program.now)) (has question.set.now) (placed_of question.place.now).place }
    ensures place { IfOk result (λ j. j.place ≡ question.entry.place.now) }
    ensures right { IfOk result (λ j. IsRight effort.budget (meaning_of (program_of question.entry.program.now)) (has question.entry.set.now) (placed_at j).place j.verdict) }
    ensures whole { IfOk result (λ j. effort.keeps ≡ true → has_all j.verdict ≡ true) }
{
    let verdict = check_place(alloc, question, effort, tries)?;
    Ok(Judged {
        place: *question.place,
        verdict: kept_if(effort.keeps, verdict),
    })
}

/// What is known of each of these places of the implementation that is prepared, under a set of candidates. In a search at most the
/// budget's nodes count, and it keeps at most its rows. Where certificates and causes aren't kept each place's are dropped before the next.
///
/// Only want of memory is an error; 2^32 atoms count as such.
pub fn judge_places<'q, 'p>(
    alloc: Global,
    program: &'q Resolved,
    prepared: &'q Prepared<'p>,
    places: &'q [Place],
    set: &'q [bool],
    effort: Effort,
) -> Result<Vec<Judged>, AllocError>
    requires typed { IsTyped (meaning_of (program_of program.now)) }
    requires scalars { is_over_values (meaning_of (program_of program.now)) ≡ true }
    requires prepared { ArePrepared (program_of program.now) prepared.now (placed_in places.now) }
    requires asked { AreAsked (meaning_of (program_of program.now)) (has set.now) (placed_in places.now) }
    ensures places { IfOk result (λ made. map placed_at made.items ≡ placed_in places.now) }
    ensures right { IfOk result (λ made. AreRightAt effort.budget (meaning_of (program_of program.now)) (has set.now) made.items) }
    ensures whole { IfOk result (λ made. effort.keeps ≡ true → have_all made.items ≡ true) }
{
    let mut made = Vec::new(alloc);
    let mut tries = some_tries();
    for place in places {
        let question = Question {
            program,
            prepared,
            place,
            set,
        };
        let one = judge(alloc, question, effort, &mut tries)?;
        made.push(one)?;
    }
    Ok(made)
}

/// What is known of each ordinary place of the implementation with this number, which is prepared, under a set of candidates. In a search
/// at most the budget's nodes count, and it keeps at most its rows. Where certificates and causes aren't kept each place's are dropped before the next.
///
/// Only want of memory is an error; 2^32 atoms count as such.
pub fn judge_ordinary<'q, 'p>(
    alloc: Global,
    program: &'q Resolved,
    prepared: &'q Prepared<'p>,
    number: usize,
    set: &'q [bool],
    effort: Effort,
) -> Result<Vec<Judged>, AllocError>
    requires typed { IsTyped (meaning_of (program_of program.now)) }
    requires scalars { is_over_values (meaning_of (program_of program.now)) ≡ true }
    requires prepared { IsPrepared (program_of program.now) number prepared.now }
    requires resolved { IsResolved (meaning_of (program_of program.now)) }
    ensures right { IfOk result (λ made. (m : r.Impl) → slice_get (program_of program.now).implementations number ≡ Some m → AreRightOf effort.budget (program_of program.now) (has set.now) number m made.items) }
    ensures whole { IfOk result (λ made. effort.keeps ≡ true → have_all made.items ≡ true) }
{
    placed_are_places();
    let places = ordinary_places(alloc, program, number)?;
    judge_places(alloc, program, prepared, &places, set, effort)
}
