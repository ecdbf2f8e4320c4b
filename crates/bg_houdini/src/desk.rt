//! What one worker keeps between its checks.
ghost use Rattle.std.specs.Prelude.{◌≡◌, IsTrue, IfOk, OnOk};

use crate::sets::truths_of;
use bg_words::CandSet;
use std::alloc::{AllocError, Global};

/// The set of candidates of a worker's last check, and a truth value for each candidate: whether it is in the set.
#[derive(Drop)]
pub struct Desk {
    pub set: CandSet,
    pub truths: Vec<bool>,
    ghost same: { truths.items ≡ set },
}

/// A desk at which nothing was checked yet: all candidates below `n` are there.
pub fn new_desk(alloc: Global, n: u32) -> Result<Desk, AllocError> {
    let set = CandSet::new(alloc, n, true)?;
    let truths = truths_of(alloc, &set)?;
    Ok(Desk { set, truths })
}

/// Whether the sets are the same. Takes time for each 64 candidates.
fn is_same(a: &CandSet, b: &CandSet) -> bool
    ensures { IsTrue result → a.now ≡ b.now }
{
    if a.declared() != b.declared() {
        return false;
    }
    if !a.is_subset(b) {
        return false;
    }
    b.is_subset(a)
}

/// A copy of a set.
fn copied(alloc: Global, set: &CandSet) -> Result<CandSet, AllocError>
    ensures { IfOk result (λ made. made ≡ set.now) }
{
    let mut made = CandSet::new(alloc, set.declared(), false)?;
    made.copy_from(set);
    Ok(made)
}

/// From now on this set is at the desk. Where it was there already, its truth values stay.
pub fn lay(alloc: Global, desk: &mut Desk, set: &CandSet) -> Result<(), AllocError>
    ensures { OnOk result (desk.new.truths.items ≡ set.now) }
{
    if is_same(&desk.set, set) {
        return Ok(());
    }
    let truths = truths_of(alloc, set)?;
    let set = copied(alloc, set)?;
    *desk = Desk { set, truths };
    Ok(())
}
