//! The start, and a list of events.
ghost use Rattle.std.specs.Prelude.{◌≡◌, Some, IfOk};
ghost use Rattle.bg_words.specs.Core.{start, run};

use crate::sets::all_of;
use crate::steps::{newcomer, step};
use bg_base::{Copied, Row};
use bg_words::{CoreState, Event};
use std::alloc::{AllocError, Global};

/// The start of `n` candidates: all of them are there, and there is one worker, the first. Fails for
/// want of memory alone.
pub fn start(alloc: Global, n: u32) -> Result<CoreState, AllocError>
    ensures { IfOk result (λ s. s ≡ start n) }
{
    let words = all_of(alloc, n)?;
    let mut workers = Row::new(alloc);
    workers.push(newcomer(alloc, Row::new(alloc)))?;
    Ok(CoreState {
        cands: n,
        next: 0,
        words,
        workers,
    })
}

/// The state after these events, None where one of them isn't allowed.
pub fn run(alloc: Global, s: &CoreState, events: &[Event]) -> Result<Option<CoreState>, AllocError>
    ensures { IfOk result (λ r. r ≡ run events.now (Some s.now)) }
{
    let mut state = s.copied(alloc)?;
    for e in events {
        let event = e.copied(alloc)?;
        match step(alloc, &state, event)? {
            None => return Ok(None),
            Some(next) => state = next,
        }
    }
    Ok(Some(state))
}
