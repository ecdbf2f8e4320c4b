//! What is made once for all checks of a program.
ghost use Rattle.std.specs.Prelude.{◌≡◌, ◌+◌, ◌<◌, ◌≤◌, ◌++◌, ◌∷◌, [], true, cond, is_some, map, length, filter, IfOk, OnOk};
ghost use Rattle.bg_ast.specs.Meaning.{meaning_of};
ghost use Rattle.bg_ast.specs.Views.{program_of};
ghost use Rattle.bg_sense.specs.Typed.{IsTyped};
ghost use Rattle.bg_sense.specs.Resolved.{IsResolved};
ghost use Rattle.bg_blocks.specs.Callees.{IsModified};
ghost use Rattle.bg_fits.specs.Valued.{is_over_values};
ghost use Rattle.bg_places.specs.Placed.{place_in};
ghost use Rattle.bg_places.specs.Views.{placed_in};
ghost use Rattle.bg_houdini.specs.Tasks.{has_candidate, tasks_of};
ghost use Rattle.bg_houdini.specs.Checkers.{IsPortion, ArePrepared, IsJudging};

use crate::chunks::{joined, piece_size};
use crate::judging::Judging;
use bg_ast::resolved::{Resolved, Variable};
use bg_check::Effort;
use bg_places::laws::placed_are_places;
use bg_places::{Place, places};
use bg_task::laws::proved_places_do_not_fail;
use bg_task::{Prepared, count_candidates, prepare};
use bg_turns::map_chunks;
use std::alloc::{AllocError, Global};
use std::thread::Threads;

/// So many implementations, from the one with this number on, prepared.
fn prepare_piece<'p>(
    alloc: Global,
    program: &'p Resolved,
    callees: &'p [Vec<Variable>],
    first: usize,
    count: usize,
) -> Result<Vec<Prepared<'p>>, AllocError>
    requires modified { IsModified (program_of program.now) callees.now }
    requires typed { IsTyped (meaning_of (program_of program.now)) }
    requires scalars { is_over_values (meaning_of (program_of program.now)) ≡ true }
    requires inside { first + count ≤ length program.now.implementations.items }
    ensures { IfOk result (λ made. IsPortion (program_of program.now) first count made.items) }
{
    let mut made = Vec::new(alloc);
    for k in 0..count {
        let one = prepare(alloc, program, callees, first + k)?;
        made.push(one)?;
    }
    Ok(made)
}

/// Each implementation, prepared: by pieces, in at most as many threads as workers, each of which takes the next piece.
fn prepare_all<'p, R: Threads + Sync>(
    rt: &R,
    alloc: Global,
    program: &'p Resolved,
    callees: &'p [Vec<Variable>],
    workers: u32,
) -> Result<Vec<Prepared<'p>>, AllocError>
    requires modified { IsModified (program_of program.now) callees.now }
    requires typed { IsTyped (meaning_of (program_of program.now)) }
    requires scalars { is_over_values (meaning_of (program_of program.now)) ≡ true }
    requires workers { 0 < workers }
    ensures { IfOk result (λ made. ArePrepared (program_of program.now) (length (program_of program.now).implementations) made.items) }
{
    let implementations = program.implementations.as_slice();
    let size = piece_size(implementations.len(), workers);
    let pieces = map_chunks(
        rt,
        alloc,
        implementations,
        size,
        workers,
        &|first, piece|
            requires modified { IsModified (program_of program.now) callees.now }
            requires typed { IsTyped (meaning_of (program_of program.now)) }
            requires scalars { is_over_values (meaning_of (program_of program.now)) ≡ true }
            requires inside { first + length piece.now ≤ length program.now.implementations.items }
            ensures { IfOk result (λ made. IsPortion (program_of program.entry.now) first (length piece.entry.now) made.items) }
        { prepare_piece(alloc, program, callees, first, piece.len()) },
    )?;
    joined(alloc, pieces)
}

/// Adds a place where it has a candidate.
fn add(made: &mut Vec<Place>, place: &Place) -> Result<(), AllocError>
    ensures { OnOk result (made.new.items ≡ made.old.items ++ cond (is_some place.now.candidate) (place.now ∷ []) []) }
{
    if place.candidate.is_none() {
        return Ok(());
    }
    made.push(*place)?;
    Ok(())
}

/// Those of these places that have a candidate, in their order.
fn with_candidate(alloc: Global, places: &[Place]) -> Result<Vec<Place>, AllocError>
    ensures { IfOk result (λ made. map place_in (placed_in made.items) ≡ filter has_candidate (map place_in (placed_in places.now))) }
{
    let mut made = Vec::new(alloc);
    for place in places {
        add(&mut made, place)?;
    }
    Ok(made)
}

/// The tasks of a program.
fn listed(alloc: Global, program: &Resolved) -> Result<Vec<Place>, AllocError>
    ensures { IfOk result (λ made. map place_in (placed_in made.items) ≡ tasks_of (meaning_of (program_of program.now))) }
{
    placed_are_places();
    let all = places(alloc, program)?;
    with_candidate(alloc, &all)
}

/// The checker of a typed program over values with numbers of its own, where these are what its procedures modify.
/// Its implementations are prepared by at most so many workers.
///
/// Only want of memory is an error; 2^32 places with a candidate count as such, and so do 2^32 incarnations or atoms of an implementation.
pub fn checker_of<'p, R: Threads + Sync>(
    rt: &R,
    alloc: Global,
    program: &'p Resolved,
    callees: &'p [Vec<Variable>],
    effort: Effort,
    workers: u32,
) -> Result<Judging<'p>, AllocError>
    requires modified { IsModified (program_of program.now) callees.now }
    requires typed { IsTyped (meaning_of (program_of program.now)) }
    requires scalars { is_over_values (meaning_of (program_of program.now)) ≡ true }
    requires resolved { IsResolved (meaning_of (program_of program.now)) }
    requires workers { 0 < workers }
    ensures stands { IfOk result IsJudging }
    ensures program { IfOk result (λ made. made.program.now ≡ program.now) }
    ensures effort { IfOk result (λ made. made.effort ≡ effort) }
{
    proved_places_do_not_fail();
    let prepared = prepare_all(rt, alloc, program, callees, workers)?;
    let tasks = listed(alloc, program)?;
    if tasks.len() >= 4_294_967_296 {
        return Err(AllocError);
    }
    let candidates = count_candidates(program)?;
    Ok(Judging {
        program,
        prepared,
        tasks,
        candidates,
        effort,
    })
}
