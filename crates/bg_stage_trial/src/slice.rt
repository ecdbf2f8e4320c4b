//! What is left of a program for one of its checks.
use crate::text::{passive_of, program};
use bg_atoms::atoms;
use bg_linear::Sort;
use bg_places::Spot;
use bg_slice::what_counts;
use std::alloc::Global;
use std::test::Fail;

/// The second way doesn't reach the check of `q`, nor does what is supposed behind it.
const TEXT: &[u8] = b"procedure P(x: int, q: bool) {
  assume x <= 12; assert x <= 13;
  if (x <= 14) { assert q; assume x <= 11; } else { assume x <= 11; }
}";

/// How many entries the rows have that are left for the check of `q`: nobody says any more that x is at most 11.
fn left(alloc: Global) -> Result<usize, Fail> {
    let passive = passive_of(alloc, &program(alloc, &[(TEXT, 1)])?)?;
    let a = atoms(alloc, &[Sort::Number, Sort::Truth], 0, &passive.blocks)?.ok_or("no atoms")?;
    let kept = what_counts(alloc, Spot::Assert(2), a.first, a.rows.len(), 0, &a.blocks)?;
    let mut entries = 0;
    for (r, is_kept) in a.rows.iter().zip(&kept.rows) {
        if *is_kept {
            entries = r.row.entries.len().saturating_add(entries);
        }
    }
    Ok(entries)
}

#[test]
fn what_does_not_reach_the_check_says_nothing(rt: HostRuntime) -> Result<(), Fail> {
    assert!(rt; left(rt.alloc())? == 3);
    Ok(())
}
