//! The variables of some rows, and which of them is eliminated first.
ghost use Rattle.std.specs.Prelude.{◌≡◌, ◌<◌, ℕ, true, map, IfOk, OnOk, length};
ghost use Rattle.std.specs.Ordering.{nat_cmp};
ghost use Rattle.std.specs.BTreeSet.{contains};
ghost use Rattle.bg_rows.specs.Rows.{row_of};
ghost use Rattle.bg_elim.specs.Kept.{is_in, no_twice, entries_in};
ghost use Rattle.bg_elim.specs.Work.{AllInside};

use crate::cost::cost_of;
use crate::work::Work;
use bg_rows::{Entry, Row};
use std::alloc::{AllocError, Global};
use std::collections::BTreeSet;

/// Adds a variable, unless it is there.
fn add_one(set: &mut BTreeSet<u32>, all: &mut Vec<u32>, x: u32) -> Result<(), AllocError>
    requires tied { (q : ℕ) → contains nat_cmp set.old q ≡ is_in q all.old.items }
    requires once { no_twice all.old.items ≡ true }
    ensures tied { OnOk result ((q : ℕ) → contains nat_cmp set.new q ≡ is_in q all.new.items) }
    ensures once { OnOk result (no_twice all.new.items ≡ true) }
    ensures more { OnOk result ((q : ℕ) → is_in q all.old.items ≡ true → is_in q all.new.items ≡ true) }
    ensures there { OnOk result (is_in x all.new.items ≡ true) }
{
    if !set.contains(&x) {
        set.insert(x)?;
        all.push(x)?;
    }
    Ok(())
}

/// Adds the variables of a row.
fn add_row(set: &mut BTreeSet<u32>, all: &mut Vec<u32>, entries: &[Entry]) -> Result<(), AllocError>
    requires tied { (q : ℕ) → contains nat_cmp set.old q ≡ is_in q all.old.items }
    requires once { no_twice all.old.items ≡ true }
    ensures tied { OnOk result ((q : ℕ) → contains nat_cmp set.new q ≡ is_in q all.new.items) }
    ensures once { OnOk result (no_twice all.new.items ≡ true) }
    ensures more { OnOk result ((q : ℕ) → is_in q all.old.items ≡ true → is_in q all.new.items ≡ true) }
    ensures there { OnOk result (entries_in all.new.items entries.now ≡ true) }
{
    for t in entries {
        add_one(set, all, t.variable)?;
    }
    Ok(())
}

/// The variables of some rows, each once.
pub fn variables(alloc: Global, rows: &[Row]) -> Result<Vec<u32>, AllocError>
    ensures once { IfOk result (λ all. no_twice all.items ≡ true) }
    ensures inside { IfOk result (λ all. AllInside all.items (map row_of rows.now)) }
{
    let mut set = BTreeSet::new(alloc);
    let mut all = Vec::new(alloc);
    for row in rows {
        add_row(&mut set, &mut all, &row.entries)?;
    }
    Ok(all)
}

/// Of variables that are named by their places, which one's elimination costs least: see `cost_of`.
pub fn choose(work: &Work, rest: &[usize]) -> usize
    requires { 0 < length rest.now }
    ensures { result < length rest.now }
{
    let mut best = 0;
    let mut least = u64::MAX;
    for (i, p) in rest.iter().enumerate() {
        let cost = match work.columns.counts.get(*p) {
            Some(both) => cost_of(both),
            None => 0,
        };
        if cost < least {
            least = cost;
            best = i;
        }
    }
    best
}
