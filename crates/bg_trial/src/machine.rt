//! The example of the older snapshot as a list of events of the machine.
use bg_base::{CandId, Row, TargetId};
use bg_words::{Answer, Event, Task};
use std::alloc::{AllocError, Global};

/// The task whose candidate is dropped twice.
pub fn last_task() -> Task {
    Task {
        target: TargetId(7),
        cand: CandId(64),
    }
}

fn snapshot(events: &mut Vec<Event>, w: u64, task: Option<Task>) -> Result<(), AllocError> {
    events.push(Event::Take(w, task))?;
    events.push(Event::Load(w, 0))?;
    events.push(Event::Load(w, 1))?;
    Ok(())
}

fn drop_it(events: &mut Vec<Event>, w: u64, unknown: bool) -> Result<(), AllocError> {
    events.push(Event::Answers(w, Answer::Fails(unknown)))?;
    events.push(Event::Draw(w))?;
    events.push(Event::Clear(w))?;
    Ok(())
}

/// Three workers take snapshots of 65 candidates; the first and then the second drop candidate 64,
/// the second by a check that ended unknown; the third keeps a pass; and the first takes both in.
pub fn older_events(alloc: Global) -> Result<Vec<Event>, AllocError> {
    let mut events = Vec::new(alloc);
    events.push(Event::Fork)?;
    events.push(Event::Fork)?;
    snapshot(&mut events, 0, Some(last_task()))?;
    snapshot(&mut events, 1, Some(last_task()))?;
    drop_it(&mut events, 0, false)?;
    let early = Task {
        target: TargetId(3),
        cand: CandId(0),
    };
    snapshot(&mut events, 2, Some(early))?;
    events.push(Event::Answers(2, Answer::Holds(Row::new(alloc))))?;
    drop_it(&mut events, 1, true)?;
    events.push(Event::Merge(1))?;
    events.push(Event::Merge(2))?;
    Ok(events)
}
