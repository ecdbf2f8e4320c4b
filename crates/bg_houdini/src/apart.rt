//! What is known of the ordinary places of one implementation, found in pieces.
ghost use Rattle.std.specs.Prelude.{◌≡◌, ◌<◌, true, Some, length, slice_get, IfOk};
ghost use Rattle.bg_ast.specs.Resolved as r;
ghost use Rattle.bg_words.specs.Sets.{has};
ghost use Rattle.bg_places.specs.Views.{placed_in};
ghost use Rattle.bg_task.specs.Asked.{AreAsked};
ghost use Rattle.bg_task.specs.Prepared.{ArePrepared};
ghost use Rattle.bg_check.specs.Verdicts.{AreRightOf, have_all};
ghost use Rattle.bg_houdini.specs.Checkers.{IsJudging, meaning_in, program_in};
ghost use Rattle.bg_houdini.specs.Known.{AreRightOn};

use crate::chunks::{joined, piece_size};
use crate::judging::Judging;
use bg_check::{Judged, judge_places, ordinary_places};
use bg_places::Place;
use bg_places::laws::placed_are_places;
use bg_task::Prepared;
use bg_turns::map_chunks;
use std::alloc::{AllocError, Global};
use std::thread::Threads;

/// What is known of each of these places of the implementation that is prepared, under a set of candidates.
fn judge_some(
    alloc: Global,
    judging: &Judging<'_>,
    prepared: &Prepared<'_>,
    places: &[Place],
    set: &[bool],
) -> Result<Vec<Judged>, AllocError>
    requires judging { IsJudging judging.now }
    requires prepared { ArePrepared (program_in judging.now) prepared.now (placed_in places.now) }
    requires asked { AreAsked (meaning_in judging.now) (has set.now) (placed_in places.now) }
    ensures { IfOk result (λ made. AreRightOn judging.now.effort (meaning_in judging.now) (has set.now) places.now made.items) }
{
    judge_places(
        alloc,
        judging.program,
        prepared,
        places,
        set,
        judging.effort,
    )
}

/// What is known of each ordinary place of the implementation with this number under a set of candidates. The places are checked by pieces,
/// in at most as many threads as workers, each of which takes the next piece.
pub fn judge_apart<R: Threads + Sync>(
    rt: &R,
    alloc: Global,
    judging: &Judging<'_>,
    number: usize,
    set: &[bool],
    workers: u32,
) -> Result<Vec<Judged>, AllocError>
    requires judging { IsJudging judging.now }
    requires number { number < length (program_in judging.now).implementations }
    requires workers { 0 < workers }
    ensures right { IfOk result (λ made. (m : r.Impl) → slice_get (program_in judging.now).implementations number ≡ Some m → AreRightOf judging.now.effort.budget (program_in judging.now) (has set.now) number m made.items) }
    ensures whole { IfOk result (λ made. judging.now.effort.keeps ≡ true → have_all made.items ≡ true) }
{
    placed_are_places();
    let prepared = &judging.prepared[number];
    let listed = ordinary_places(alloc, judging.program, number)?;
    let places = listed.as_slice();
    let size = piece_size(places.len(), workers);
    let pieces = map_chunks(
        rt,
        alloc,
        places,
        size,
        workers,
        &|_, piece|
            requires judging { IsJudging judging.now }
            requires prepared { ArePrepared (program_in judging.now) prepared.now (placed_in piece.now) }
            requires asked { AreAsked (meaning_in judging.now) (has set.now) (placed_in piece.now) }
            ensures { IfOk result (λ made. AreRightOn judging.entry.now.effort (meaning_in judging.entry.now) (has set.entry.now) piece.entry.now made.items) }
        { judge_some(alloc, judging, prepared, piece, set) },
    )?;
    joined(alloc, pieces)
}
