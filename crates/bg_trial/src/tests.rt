use crate::{
    chain, fresh_seat, last_task, left_by_script, older_events, older_snapshot, script_drops,
};
use bg_base::CandId;
use bg_claims::{Claims, FreeGate, Gate, MeetGate};
use bg_core::{run, start, step};
use bg_words::{Answer, CandSet, CoreState, Event};
use std::alloc::{AllocError, Global};
use std::test::Fail;
use std::thread::join;

#[test]
fn an_older_snapshot_still_draws(rt: HostRuntime) -> Result<(), Fail> {
    for n in [65u32, 4096] {
        let seen = older_snapshot(rt.alloc(), n)?;
        assert!(rt; seen.third_had_it && seen.both_lack_it);
        let (Some(first), Some(second)) = (seen.first, seen.second) else {
            panic!(rt; "a snapshot lacks a candidate that is there")
        };
        assert!(rt; first.number == 0 && first.was_there);
        assert!(rt; second.number == 1 && !second.was_there);
        assert!(rt; seen.left.count() == n - 1);
    }
    Ok(())
}

#[test]
fn one_seat_drops_one_after_the_other(rt: HostRuntime) -> Result<(), Fail> {
    let (counts, numbers) = chain(rt.alloc(), 64)?;
    assert_eq!(rt; counts.len(), 65);
    assert_eq!(rt; numbers.len(), 64);
    let mut left: u32 = 64;
    for count in &counts {
        assert_eq!(rt; *count, left);
        left = left.saturating_sub(1);
    }
    let mut next: u64 = 0;
    for number in &numbers {
        assert_eq!(rt; *number, next);
        next = next.saturating_add(1);
    }
    Ok(())
}

#[test]
fn workers_in_threads_leave_what_the_script_keeps(rt: HostRuntime) -> Result<(), Fail> {
    for (cands, count) in [(65u32, 1u32), (65, 2), (130, 16), (4096, 2), (4096, 16)] {
        let left = left_by_script(&rt, rt.alloc(), cands, count)?;
        for c in 0..cands {
            assert!(rt; left.has(CandId(c)) != script_drops(c), "{c} of {cands}");
        }
    }
    Ok(())
}

#[test]
fn a_first_worker_is_held_until_a_second_enters(rt: HostRuntime) -> Result<(), Fail> {
    FreeGate.enter(0, 0);
    let alone = MeetGate::new(1000);
    alone.enter(0, 0);
    alone.enter(0, 1);
    alone.enter(1, 2);
    assert!(rt; !alone.met());
    let both = MeetGate::new(100_000_000_000);
    join(&rt, || both.enter(0, 0), || both.enter(1, 1));
    assert!(rt; both.met());
    Ok(())
}

#[test]
fn claims_run_out(rt: HostRuntime) -> Result<(), Fail> {
    let (one, mut seats) = Claims::new(rt.alloc(), 1, 1)?;
    let Some(mut seat) = fresh_seat(&one, &mut seats) else {
        panic!(rt; "no seat")
    };
    assert_eq!(rt; one.next(&mut seat), Some(0));
    assert_eq!(rt; one.next(&mut seat), None);
    assert_eq!(rt; one.next(&mut seat), None);
    let (three, mut seats) = Claims::new(rt.alloc(), 3, 2)?;
    let (Some(mut a), Some(mut b)) = (
        fresh_seat(&three, &mut seats),
        fresh_seat(&three, &mut seats),
    ) else {
        panic!(rt; "no seats")
    };
    assert_eq!(rt; three.next(&mut a), Some(0));
    assert_eq!(rt; three.next(&mut b), Some(1));
    assert_eq!(rt; three.next(&mut a), Some(2));
    assert_eq!(rt; three.next(&mut a), None);
    assert_eq!(rt; three.next(&mut b), None);
    three.merge(&mut a, b);
    assert_eq!(rt; three.next(&mut a), None);
    Ok(())
}

#[test]
fn sets_of_one_word_and_of_many(rt: HostRuntime) -> Result<(), Fail> {
    for n in [1u32, 64, 65, 4096] {
        let mut all = CandSet::new(rt.alloc(), n, true)?;
        let mut some = CandSet::new(rt.alloc(), n, false)?;
        assert!(rt; all.count() == n && some.count() == 0);
        assert!(rt; some.is_subset(&all) && !all.is_subset(&some));
        some.copy_from(&all);
        assert!(rt; all.is_subset(&some));
        all.remove(CandId(n - 1));
        assert!(rt; all.count() == n - 1 && !all.has(CandId(n - 1)));
        assert!(rt; all.is_subset(&some) && !some.is_subset(&all));
    }
    Ok(())
}

#[test]
fn the_machine_runs_an_older_snapshot(rt: HostRuntime) -> Result<(), Fail> {
    let events = older_events(rt.alloc())?;
    let from = start(rt.alloc(), 65)?;
    let Some(end) = run(rt.alloc(), &from, events.as_slice())? else {
        panic!(rt; "an event is refused")
    };
    assert_eq!(rt; end.next, 2);
    assert_eq!(rt; end.words.get(63).copied(), Some(true));
    assert_eq!(rt; end.words.get(64).copied(), Some(false));
    let Some(first) = end.workers.get(0) else {
        panic!(rt; "no first worker")
    };
    assert!(rt; first.decisions.len() == 2 && first.passes.len() == 1);
    let (Some(a), Some(b)) = (first.seen.entries.get(0), first.seen.entries.get(1)) else {
        panic!(rt; "an entry is lost")
    };
    assert!(rt; a.number == 0 && a.cand == CandId(64) && a.was_there);
    assert!(rt; b.number == 1 && b.cand == CandId(64) && !b.was_there);
    Ok(())
}

fn is_refused(alloc: Global, s: &CoreState, e: Event) -> Result<bool, AllocError> {
    Ok(step(alloc, s, e)?.is_none())
}

#[test]
fn the_machine_refuses_what_is_out_of_turn(rt: HostRuntime) -> Result<(), Fail> {
    let alloc = rt.alloc();
    let from = start(alloc, 65)?;
    assert!(rt; is_refused(alloc, &from, Event::Load(0, 0))?);
    assert!(rt; is_refused(alloc, &from, Event::Draw(0))?);
    assert!(rt; is_refused(alloc, &from, Event::Clear(0))?);
    assert!(rt; is_refused(alloc, &from, Event::Merge(0))?);
    assert!(rt; is_refused(alloc, &from, Event::Take(1, None))?);
    let Some(taken) = step(alloc, &from, Event::Take(0, Some(last_task())))? else {
        panic!(rt; "a taking is refused")
    };
    assert!(rt; is_refused(alloc, &taken, Event::Load(0, 1))?);
    let Some(half) = step(alloc, &taken, Event::Load(0, 0))? else {
        panic!(rt; "a load is refused")
    };
    assert!(rt; is_refused(alloc, &half, Event::Answers(0, Answer::Fails(false)))?);
    assert!(rt; is_refused(alloc, &half, Event::Load(0, 0))?);
    Ok(())
}
