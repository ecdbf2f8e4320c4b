//! The index of a formula made by hand.
use crate::made::formula;
use crate::whole::is_whole;
use bg_pick::{Hint, index_of};
use std::test::Fail;

fn are_lengths(lists: &[Vec<Hint>], wanted: &[usize]) -> bool {
    lists.len() == wanted.len() && lists.iter().zip(wanted).all(|(list, n)| list.len() == *n)
}

/// A literal's list names no other clauses than its own.
#[test]
fn lists_are_as_short_as_can_be(rt: HostRuntime) -> Result<(), Fail> {
    let alloc = rt.alloc();
    let clauses: [&[(u32, bool)]; 2] = [&[(0, true), (1, true)], &[(0, true), (1, false)]];
    let mut f = formula(alloc, &[], 2, &clauses)?;
    f.candidates = vec![in alloc; None, Some(1)]?;
    if !is_whole(&f) {
        return Err("an atom isn't there".into());
    }
    let i = index_of(alloc, &f, &[true, true])?;
    assert!(rt; i.start.len() == 3);
    assert!(rt; are_lengths(&i.yes, &[2, 2]));
    assert!(rt; are_lengths(&i.no, &[0, 1]));
    Ok(())
}
