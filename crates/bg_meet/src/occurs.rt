//! Which clauses of the formula each literal stands in.

use bg_formula::Clauses;
use bg_simplex::Lit;
use bg_trail::named;
use std::alloc::{AllocError, Global};

/// For each literal the clauses in which it stands.
#[derive(Drop)]
pub struct Occurs {
    pub clauses: Vec<Vec<u32>>,
}

/// The clauses of each literal of a formula.
pub fn occurs_of(alloc: Global, f: &Clauses) -> Result<Occurs, AllocError> {
    let mut clauses = Vec::new(alloc);
    for _ in 0..f.atoms.len().saturating_mul(2) {
        clauses.push(Vec::new(alloc))?;
    }
    for (k, clause) in f.clauses.iter().enumerate() {
        let k = u32::try_from(k).unwrap_or(u32::MAX);
        for l in clause {
            if let Some(list) = clauses.get_mut(named(l) as usize) {
                list.push(k)?;
            }
        }
    }
    Ok(Occurs { clauses })
}

/// The clauses in which a literal stands.
pub fn clauses_of(occurs: &Occurs, l: Lit) -> &[u32] {
    match occurs.clauses.get(l as usize) {
        Some(list) => list.as_slice(),
        None => &[],
    }
}
