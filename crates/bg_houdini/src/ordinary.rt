//! What is known of the ordinary places under what is retained.
ghost use Rattle.std.specs.Prelude.{◌<◌, length, take, drop, IfOk};
ghost use Rattle.bg_words.specs.Sets.{has};
ghost use Rattle.bg_check.specs.Verdicts.{judged};
ghost use Rattle.bg_houdini.specs.Checkers.{ArePreparedFrom, IsJudging, program_in};
ghost use Rattle.bg_houdini.specs.Known.{AreKnownFrom, AreKnownUnder};

use crate::apart::judge_apart;
use crate::chunks::{joined, piece_size};
use crate::judging::Judging;
use crate::sets::truths_of;
use bg_check::{Judged, judge_ordinary};
use bg_task::Prepared;
use bg_turns::map_chunks;
use bg_words::CandSet;
use std::alloc::{AllocError, Global};
use std::thread::Threads;

/// What is known of each ordinary place of the implementations that are prepared in a piece, the first of which has this number, under a
/// set of candidates.
fn judge_piece(
    alloc: Global,
    judging: &Judging<'_>,
    first: usize,
    piece: &[Prepared<'_>],
    set: &[bool],
) -> Result<Vec<Vec<Judged>>, AllocError>
    requires judging { IsJudging judging.now }
    requires piece { ArePreparedFrom (program_in judging.now) first piece.now }
    ensures { IfOk result (λ made. AreKnownFrom judging.now.effort (program_in judging.now) (has set.now) first (take (length piece.now) (drop first (program_in judging.now).implementations)) (judged made.items)) }
{
    let mut made = Vec::new(alloc);
    for k in 0..piece.len() {
        let prepared = &piece[k];
        let one = judge_ordinary(
            alloc,
            judging.program,
            prepared,
            first + k,
            set,
            judging.effort,
        )?;
        made.push(one)?;
    }
    Ok(made)
}

/// What is known of each ordinary place under a set of candidates, by implementation and place. The implementations are checked by pieces,
/// in at most as many threads as workers, each of which takes the next piece.
fn judge_runs<R: Threads + Sync>(
    rt: &R,
    alloc: Global,
    judging: &Judging<'_>,
    known: &[bool],
    workers: u32,
) -> Result<Vec<Vec<Judged>>, AllocError>
    requires judging { IsJudging judging.now }
    requires workers { 0 < workers }
    ensures { IfOk result (λ made. AreKnownUnder (has known.now) judging.now.effort (program_in judging.now) (judged made.items)) }
{
    let prepared = judging.prepared.as_slice();
    let size = piece_size(prepared.len(), workers);
    let pieces = map_chunks(
        rt,
        alloc,
        prepared,
        size,
        workers,
        &|first, piece|
            requires judging { IsJudging judging.now }
            requires piece { ArePreparedFrom (program_in judging.now) first piece.now }
            ensures { IfOk result (λ made. AreKnownFrom judging.entry.now.effort (program_in judging.entry.now) (has known.entry.now) first (take (length piece.entry.now) (drop first (program_in judging.entry.now).implementations)) (judged made.items)) }
        { judge_piece(alloc, judging, first, piece, known) },
    )?;
    joined(alloc, pieces)
}

/// What is known of each ordinary place under a set of candidates, by implementation and place. The places of an implementation are
/// checked in at most as many threads as workers, and the implementations one after the other.
fn judge_each<R: Threads + Sync>(
    rt: &R,
    alloc: Global,
    judging: &Judging<'_>,
    known: &[bool],
    workers: u32,
) -> Result<Vec<Vec<Judged>>, AllocError>
    requires judging { IsJudging judging.now }
    requires workers { 0 < workers }
    ensures { IfOk result (λ made. AreKnownUnder (has known.now) judging.now.effort (program_in judging.now) (judged made.items)) }
{
    let mut made = Vec::new(alloc);
    for k in 0..judging.prepared.len() {
        let one = judge_apart(rt, alloc, judging, k, known, workers)?;
        made.push(one)?;
    }
    Ok(made)
}

/// What is known of each ordinary place under a set of candidates, by implementation and place. The implementations are checked by pieces,
/// in at most as many threads as workers; where there are fewer implementations than workers, so are the places of each.
pub fn judge_all<R: Threads + Sync>(
    rt: &R,
    alloc: Global,
    judging: &Judging<'_>,
    set: &CandSet,
    workers: u32,
) -> Result<Vec<Vec<Judged>>, AllocError>
    requires judging { IsJudging judging.now }
    requires workers { 0 < workers }
    ensures { IfOk result (λ made. AreKnownUnder (has set.now) judging.now.effort (program_in judging.now) (judged made.items)) }
{
    let truths = truths_of(alloc, set)?;
    let known = truths.as_slice();
    if judging.prepared.len() < workers as usize {
        judge_each(rt, alloc, judging, known, workers)
    } else {
        judge_runs(rt, alloc, judging, known, workers)
    }
}
