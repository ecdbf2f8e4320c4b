use bg_claims::{Gate, MeetGate};
use bg_turns::map_chunks;
use std::test::Fail;

// The chunks of 7 of a hundred, each by where it begins and how long it is, by fewer threads and by more than there are chunks.
#[test]
fn chunks_by_turns_are_in_order(rt: HostRuntime) -> Result<(), Fail> {
    let alloc = rt.alloc();
    let list = vec![in alloc; 5u32; 100]?;
    for threads in [0u32, 1, 3, 16, 40] {
        let made = map_chunks(
            &rt,
            alloc,
            &list,
            7,
            threads,
            &|start, chunk| { (start, chunk.len()) },
        )?;
        let mut at: usize = 0;
        for (start, long) in &made {
            assert!(rt; *start == at && *long == if at == 98 { 2 } else { 7 });
            at = at.saturating_add(7);
        }
        assert!(rt; made.len() == 15);
    }
    Ok(())
}

// No chunk of an empty list.
#[test]
fn an_empty_list_has_no_chunk(rt: HostRuntime) -> Result<(), Fail> {
    let list: [u32; 0] = [];
    let made = map_chunks(&rt, rt.alloc(), &list, 3, 4, &|start, _| start)?;
    assert!(rt; made.is_empty());
    Ok(())
}

// Two threads call at once: the first that enters a gate is held there until another comes. One thread meets nobody.
#[test]
fn calls_by_turns_are_made_in_threads(rt: HostRuntime) -> Result<(), Fail> {
    let list = [0u32; 8];
    for (threads, met) in [(2u32, true), (1, false)] {
        let gate = MeetGate::new(10_000_000);
        let made = map_chunks(
            &rt,
            rt.alloc(),
            &list,
            1,
            threads,
            &|start, _| {
                gate.enter(0, 0);
                start
            },
        )?;
        assert!(rt; made.len() == 8 && gate.met() == met);
    }
    Ok(())
}
