//! A live row that another one implies isn't paired any more.
ghost use Rattle.std.specs.Prelude.{◌≡◌, ◌&&◌, ℕ, not, length};
ghost use Rattle.bg_elim.specs.Kept.{is_in};
ghost use Rattle.bg_elim.specs.Work.{is_live, is_nearer};

use crate::work::Stand;

/// Whether a row is live.
pub fn is_live(live: &[bool], n: usize) -> bool
    ensures { result ≡ is_live live.now n }
{
    match live.get(n) {
        Some(yes) => *yes,
        None => false,
    }
}

/// Takes out the row that a new one implies, if there is one.
pub fn retire(live: &mut Vec<bool>, stand: Stand)
    ensures sized { length live.new.items ≡ length live.old.items }
    ensures back { (q : ℕ) → is_live live.new.items q ≡ (is_live live.old.items q && not (is_nearer q stand)) }
{
    if let Stand::Nearer(n) = stand {
        if n < live.len() {
            live[n] = false;
        }
    }
}

/// Takes out rows.
pub fn take_out(live: &mut Vec<bool>, numbers: &[usize])
    ensures sized { length live.new.items ≡ length live.old.items }
    ensures is { (q : ℕ) → is_live live.new.items q ≡ (is_live live.old.items q && not (is_in q numbers.now)) }
{
    for n in numbers {
        if *n < live.len() {
            live[*n] = false;
        }
    }
}
