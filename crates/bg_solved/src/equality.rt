//! Solved equalities.
use bg_rows::Row;
use bg_simplex::Lit;
use std::alloc::{AllocError, Global};

/// So many times a solved equality, which were taken from a row.
#[derive(Clone, Copy)]
pub struct Dep {
    pub equality: u32,
    pub times: i128,
}

/// An equality in which a term stands once, as two rows: that of the literal `up`, `term + rest <= k`, and that of the literal `down`,
/// `-term - rest <= -k`; of both, what was taken from the literal's own row so that it came to be this one. No term of an earlier
/// equality stands in it.
#[derive(Drop)]
pub struct Equality {
    pub term: u32,
    pub up: Lit,
    pub down: Lit,
    pub row: Row,
    pub opposite: Row,
    pub up_deps: Vec<Dep>,
    pub down_deps: Vec<Dep>,
}

/// The solved equalities, and for each term the one that eliminates it.
#[derive(Drop)]
pub struct Solved {
    pub equalities: Vec<Equality>,
    pub of_term: Vec<Option<u32>>,
}

/// No equalities, over so many terms.
pub fn new_solved(alloc: Global, terms: u32) -> Result<Solved, AllocError> {
    let of_term = vec![in alloc; None; terms as usize]?;
    Ok(Solved {
        equalities: Vec::new(alloc),
        of_term,
    })
}

/// The equality that eliminates a term, if one does.
pub fn solved_for(s: &Solved, term: u32) -> Option<u32> {
    match s.of_term.get(term as usize) {
        Some(found) => *found,
        None => None,
    }
}
