//! The candidates that a certificate names.
ghost use Rattle.std.specs.Prelude.{◌≡◌, ◌&&◌, ◌||◌, ℕ, nat_lt, length, map, IfOk};
ghost use Rattle.bg_cert.specs.Certs.{node_of, names_unit, uses};
ghost use Rattle.bg_cert.specs.Walks.{has};

use crate::cert::Node;
use std::alloc::{AllocError, Global};

/// Marks the candidate that a node names, if it is one of the set's.
#[tactic(auto, using(crate::proofs::Members::mark_there, crate::proofs::Members::mark_past, crate::proofs::Members::mark_none))]
fn mark(set: &mut [bool], node: &Node)
    ensures long { length set.new ≡ length set.old }
    ensures marked { (c : ℕ) → has set.new c ≡ (has set.old c || (nat_lt c (length set.old) && names_unit c (node_of node.now))) }
{
    if let Node::Unit(c) = node {
        let c = *c;
        if c < set.len() as u128 {
            set[c as usize] = true;
        }
    }
}

/// The set of those of the first `candidates` candidates that a node names as units, as a list of
/// so many truth values.
pub fn used(alloc: Global, cert: &[Node], candidates: usize) -> Result<Vec<bool>, AllocError>
    ensures long { IfOk result (λ set. length set.items ≡ candidates) }
    ensures exact { IfOk result (λ set. (c : ℕ) → has set.items c ≡ (nat_lt c candidates && uses (map node_of cert.now) c)) }
{
    let mut set = vec![in alloc; false; candidates]?;
    for node in cert {
        mark(&mut set, node);
    }
    Ok(set)
}
