//! The literals of a lemma.
ghost use Rattle.std.specs.Prelude.{◌≡◌, ℕ, ◌≤◌, ◌++◌, not, length, IfOk, IsTrue};
ghost use Rattle.bg_cert.specs.Paths.{decides, clause_false, denials};
ghost use Rattle.bg_cert.specs.Certs.{literal_of, lemma_of};
ghost use Rattle.bg_cert.specs.Tours.{place_in, lemma_at, all_below};

use crate::cert::{Decision, Named, Node};
use crate::trail::{Trail, decide, decides};
use std::alloc::AllocError;

/// The place of a literal's atom, where the table's rows stand behind the formula's `atoms` and all
/// are `places`, if it is there.
fn place_of(atoms: usize, places: usize, l: &Named) -> Option<usize>
    requires { atoms ≤ places }
    ensures { result ≡ place_in places (literal_of atoms l.now) }
{
    match *l {
        Named::OfAtom(a, _) => {
            if a < places as u128 {
                Some(a as usize)
            } else {
                None
            }
        }
        Named::OfRow(r, _) => {
            if r < (places - atoms) as u128 {
                Some(atoms + r as usize)
            } else {
                None
            }
        }
    }
}

fn sign_of(l: &Named) -> bool
    ensures { (n : ℕ) → result ≡ (literal_of n l.now).sign }
{
    match *l {
        Named::OfAtom(_, s) => s,
        Named::OfRow(_, s) => s,
    }
}

/// Decides each literal the other way, if its atom is there.
pub fn deny_all(trail: &mut Trail, atoms: usize, lemma: &[Named]) -> Result<bool, AllocError>
    requires { atoms ≤ length trail.old.counts.items }
    ensures sized { length trail.new.counts.items ≡ length trail.old.counts.items }
    ensures there { IfOk result (λ yes. yes ≡ all_below (length trail.old.counts.items) (lemma_of atoms lemma.now)) }
    ensures denied { IfOk result (λ yes. IsTrue yes → trail.new.decisions.items ≡ trail.old.decisions.items ++ denials (lemma_of atoms lemma.now)) }
{
    for l in lemma {
        match place_of(atoms, trail.counts.len(), l) {
            Some(a) => decide(trail, Decision::Atom(a, !sign_of(l)))?,
            None => return Ok(false),
        }
    }
    Ok(true)
}

/// Whether the literal is decided the other way.
fn denied(trail: &Trail, atoms: usize, l: &Named) -> bool
    requires { atoms ≤ length trail.now.counts.items }
    ensures { result ≡ decides (literal_of atoms l.now).atom (not (literal_of atoms l.now).sign) trail.now.decisions.items }
{
    match place_of(atoms, trail.counts.len(), l) {
        Some(a) => decides(trail, a, !sign_of(l)),
        None => false,
    }
}

/// Whether each literal is decided the other way.
fn lemma_false(trail: &Trail, atoms: usize, lemma: &[Named]) -> bool
    requires { atoms ≤ length trail.now.counts.items }
    ensures { result ≡ clause_false trail.now.decisions.items (lemma_of atoms lemma.now) }
{
    for l in lemma {
        if !denied(trail, atoms, l) {
            return false;
        }
    }
    true
}

/// Whether each literal of the lemma of this node is decided the other way. Another node has none.
pub fn known_false(trail: &Trail, atoms: usize, nodes: &[Node], k: usize) -> bool
    requires { atoms ≤ length trail.now.counts.items }
    ensures { result ≡ clause_false trail.now.decisions.items (lemma_at atoms nodes.now k) }
{
    match nodes.get(k) {
        Some(Node::Lemma(ls)) => lemma_false(trail, atoms, ls),
        _ => true,
    }
}
