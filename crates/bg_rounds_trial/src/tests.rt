use crate::{Chain, CountGate};
use bg_claims::MeetGate;
use bg_rounds::{Outcome, infer, infer_alone};
use std::test::Fail;

// A chain whose checks find memory.
fn chain(cands: u32, last_fails: bool) -> Chain {
    Chain {
        cands,
        last_fails,
        starved: None,
    }
}

// The removals stand in the order of their numbers, which are 0, 1, 2 and so on, and each found its
// candidate there.
fn is_in_order(o: &Outcome<u32, u32>) -> bool {
    let mut next: u64 = 0;
    for removal in &o.removals {
        if removal.number != next || !removal.was_there {
            return false;
        }
        next = next.saturating_add(1);
    }
    true
}

// Each target but the last passes first, and is checked again once the next candidate went; with more
// workers it may be that one is seen only then.
#[test]
fn a_chain_is_dropped_from_its_end(rt: HostRuntime) -> Result<(), Fail> {
    for cands in [1u32, 2, 64, 65, 130] {
        let chain = chain(cands, true);
        let alone = infer_alone(rt.alloc(), &chain)?;
        assert!(rt;
            alone.retained.count() == 0
                && alone.removals.len() == cands as usize
                && is_in_order(&alone)
        );
        for workers in [1u32, 2, 16] {
            let gate = CountGate::new(rt.alloc(), cands)?;
            let many = infer(&rt, rt.alloc(), &chain, &gate, workers)?;
            let (all, most) = gate.counts();
            assert!(rt;
                many.retained.count() == 0 && many.removals.len() == cands as usize && most <= 2
            );
            assert!(rt; workers != 1 || (all == 2 * u64::from(cands) - 1 && is_in_order(&many)));
        }
    }
    Ok(())
}

// Each round drops one candidate, and checks the one target whose kept proof used it: rounds that looked
// at all targets again would check some 8,000,000.
#[test]
fn a_kept_proof_saves_its_target_from_later_rounds(rt: HostRuntime) -> Result<(), Fail> {
    let chain = chain(4000, true);
    let gate = CountGate::new(rt.alloc(), 4000)?;
    let one = infer(&rt, rt.alloc(), &chain, &gate, 1)?;
    assert!(rt; one.removals.len() == 4000 && gate.counts() == (7999, 2));
    Ok(())
}

#[test]
fn a_chain_that_holds_is_kept(rt: HostRuntime) -> Result<(), Fail> {
    for cands in [0u32, 1, 65] {
        let chain = chain(cands, false);
        for workers in [1u32, 2, 16] {
            let gate = CountGate::new(rt.alloc(), cands)?;
            let many = infer(&rt, rt.alloc(), &chain, &gate, workers)?;
            let (all, most) = gate.counts();
            assert!(rt; many.retained.count() == cands && many.removals.is_empty());
            assert!(rt; all == u64::from(cands) && most <= 1);
        }
    }
    Ok(())
}

// The first target's check finds no memory: its worker ends its share there, another one does what is left
// of the round, and there is no outcome.
#[test]
fn a_worker_without_memory_ends_its_share(rt: HostRuntime) -> Result<(), Fail> {
    let starved = Chain {
        cands: 65,
        last_fails: false,
        starved: Some(0),
    };
    for (workers, checks) in [(1u32, 1u64), (2, 65), (16, 65)] {
        let gate = CountGate::new(rt.alloc(), 65)?;
        assert!(rt; infer(&rt, rt.alloc(), &starved, &gate, workers).is_err());
        assert!(rt; gate.counts() == (checks, 1));
    }
    Ok(())
}

#[test]
fn two_checks_are_in_flight_at_once(rt: HostRuntime) -> Result<(), Fail> {
    let gate = MeetGate::new(100_000_000_000);
    let two = infer(&rt, rt.alloc(), &chain(2, false), &gate, 2)?;
    assert!(rt; two.retained.count() == 2 && gate.met());
    Ok(())
}
