//! What a leaf claims about its path.
ghost use Rattle.std.specs.Prelude.{◌≡◌, map};
ghost use Rattle.bg_formula.specs.Atoms.{at};
ghost use Rattle.bg_formula.specs.Formulas.{joined};
ghost use Rattle.bg_cert.specs.Paths.{clause_false, names_false, unit_false};

use crate::trail::{Trail, decides};
use bg_formula::Literal;

/// Whether each literal is decided the other way.
pub fn clause_false(trail: &Trail, clause: &[Literal]) -> bool
    ensures { result ≡ clause_false trail.now.decisions.items clause.now }
{
    for l in clause {
        if !decides(trail, l.atom as usize, !l.sign) {
            return false;
        }
    }
    true
}

/// Whether the clause of this number is false on the path.
#[tactic(auto, using(crate::proofs::Places::at_map_there, crate::proofs::Places::at_map_missing))]
pub fn names_false(trail: &Trail, clauses: &[Vec<Literal>], c: u128) -> bool
    ensures { result ≡ names_false trail.now.decisions.items (at (map (λ c. c.items) clauses.now) c) }
{
    if c < clauses.len() as u128 {
        let c = c as usize;
        clause_false(trail, &clauses[c])
    } else {
        false
    }
}

/// Whether the candidate's atom is false on the path.
#[tactic(auto, using(crate::proofs::Places::at_there, crate::proofs::Places::at_missing))]
pub fn unit_false(trail: &Trail, candidates: &[Option<u32>], c: u128) -> bool
    ensures { result ≡ unit_false trail.now.decisions.items (joined (at candidates.now c)) }
{
    if c < candidates.len() as u128 {
        let c = c as usize;
        match candidates[c] {
            Some(a) => decides(trail, a as usize, false),
            None => false,
        }
    } else {
        false
    }
}
