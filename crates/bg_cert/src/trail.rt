//! What a path decided, with counts by which an atom is looked up in constant time.
ghost use Rattle.std.specs.Prelude.{◌≡◌, ℕ, ◌++◌, ◌∷◌, [], ◌<◌, ◌-◌, Bool, length, take, nat_lt, IfOk, OnOk};
ghost use Rattle.bg_cert.specs.Paths.{decides};
ghost use Rattle.bg_cert.specs.Counts.{times, count_at, Fits};

use crate::cert::Decision;
use crate::tally::{Tally, is_counted, one_less, one_more};
use std::alloc::{AllocError, Global};

/// Decisions in their order, and for each atom how often they give it each sign.
#[derive(Drop)]
pub struct Trail {
    pub decisions: Vec<Decision>,
    pub counts: Vec<Tally>,
    pub ghost counted: { (a : ℕ) (s : Bool) → count_at counts.items a s ≡ times a s decisions.items },
}

/// The trail of no decisions, for so many atoms.
pub fn first_trail(alloc: Global, atoms: usize) -> Result<Trail, AllocError>
    ensures bare { IfOk result (λ t. t.decisions.items ≡ []) }
    ensures sized { IfOk result (λ t. length t.counts.items ≡ atoms) }
{
    let counts = vec![in alloc; Tally { yes: 0, no: 0 }; atoms]?;
    let decisions = Vec::new(alloc);
    Ok(Trail { decisions, counts })
}

/// Whether the trail gives the atom this sign. Takes constant time.
pub fn decides(trail: &Trail, atom: usize, sign: bool) -> bool
    ensures { result ≡ decides atom sign trail.now.decisions.items }
{
    if atom < trail.counts.len() {
        is_counted(trail.counts[atom], sign)
    } else {
        false
    }
}

/// Puts a decision behind the others.
pub fn decide(trail: &mut Trail, d: Decision) -> Result<(), AllocError>
    requires { Fits (length trail.old.counts.items) d }
    ensures decided { OnOk result (trail.new.decisions.items ≡ trail.old.decisions.items ++ (d ∷ [])) }
    ensures sized { length trail.new.counts.items ≡ length trail.old.counts.items }
{
    trail.decisions.push(d)?;
    match d {
        Decision::AtMost(_, _, _) => {}
        Decision::Atom(a, s) => trail.counts[a] = one_more(trail.counts[a], s),
    }
    Ok(())
}

/// Takes the last decision back.
fn undo(trail: &mut Trail)
    requires { 0 < length trail.old.decisions.items }
    ensures undone { trail.new.decisions.items ≡ take (length trail.old.decisions.items - 1) trail.old.decisions.items }
    ensures sized { length trail.new.counts.items ≡ length trail.old.counts.items }
{
    match trail.decisions.pop() {
        None => {}
        Some(Decision::AtMost(_, _, _)) => {}
        Some(Decision::Atom(a, s)) => trail.counts[a] = one_less(trail.counts[a], s),
    }
}

/// Takes back all decisions but the first few. Takes time for each that is taken back.
pub fn undo_to(trail: &mut Trail, depth: usize)
    ensures undone { trail.new.decisions.items ≡ take depth trail.old.decisions.items }
    ensures sized { length trail.new.counts.items ≡ length trail.old.counts.items }
{
    while trail.decisions.len() > depth {
        undo(trail);
    }
}
