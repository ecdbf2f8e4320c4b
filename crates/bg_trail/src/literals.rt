//! Literals as numbers, so that lists may be found by them.

use bg_formula::Literal;
use bg_simplex::Lit;
use std::alloc::{AllocError, Global};

/// The literal that an atom has this value: twice the atom's number, and one more where it is to be false.
pub fn literal(atom: u32, value: bool) -> Lit {
    if value { atom << 1 } else { (atom << 1) | 1 }
}

/// The literal of a formula's clause.
pub fn named(l: &Literal) -> Lit {
    literal(l.atom, l.sign)
}

/// The literals of a formula's clause, in its order.
pub fn numbered(alloc: Global, clause: &[Literal]) -> Result<Vec<Lit>, AllocError> {
    let mut made = Vec::with_capacity(alloc, clause.len())?;
    for l in clause {
        made.push(named(l))?;
    }
    Ok(made)
}

/// The denial of a literal.
pub fn negated(l: Lit) -> Lit {
    l ^ 1
}

/// The number of a literal's atom.
pub fn atom_of(l: Lit) -> usize {
    (l >> 1) as usize
}

/// Whether the literal says that its atom is true.
pub fn is_positive(l: Lit) -> bool {
    l & 1 == 0
}
