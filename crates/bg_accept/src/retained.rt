//! The candidates that a certificate's text retains.
ghost use Rattle.std.specs.Prelude.{◌≡◌, ◌∷◌, ◌++◌, ◌≤◌, List, drop, length, map, IfOk};
ghost use Rattle.bg_text.specs.Trees.{Id};
ghost use Rattle.bg_text.specs.Views.{id_of};
ghost use Rattle.bg_accept.specs.Names.{marks, unplaced};
ghost use Rattle.bg_accept.specs.Retained.{begins, texts, IsRetained};

use bg_text::Name;
use std::alloc::{AllocError, Global};

/// Of each candidate whether it is retained; or the first name that is none of the candidates' behind those of the names before it.
#[derive(Drop)]
pub enum Retained<'c> {
    Marks(Vec<bool>),
    Unplaced(&'c [u8]),
}

/// Whether the name with this number, from 0, is the candidate's.
#[tactic(auto, using(crate::proofs::Marking::begins_none))]
fn is_next(candidate: &Name, names: &[&[u8]], number: usize) -> bool
    ensures { result ≡ begins (id_of candidate.now) (drop number (texts names.now)) }
{
    match names.get(number) {
        None => false,
        Some(name) => candidate.text.as_slice() == *name,
    }
}

/// Marks a candidate, and goes behind the name with this number if it is the candidate's.
fn mark(
    made: &mut Vec<bool>,
    candidate: &Name,
    names: &[&[u8]],
    number: usize,
) -> Result<usize, AllocError>
    requires within { number ≤ length names.now }
    ensures within { IfOk result (λ n. n ≤ length names.now) }
    ensures marked { IfOk result (λ n. (cs : List Id) → made.new.items ++ marks cs (drop n (texts names.now)) ≡ made.old.items ++ marks (id_of candidate.now ∷ cs) (drop number (texts names.now))) }
    ensures unplaced { IfOk result (λ n. (cs : List Id) → unplaced cs (drop n (texts names.now)) ≡ unplaced (id_of candidate.now ∷ cs) (drop number (texts names.now))) }
{
    if is_next(candidate, names, number) {
        made.push(true)?;
        Ok(number + 1)
    } else {
        made.push(false)?;
        Ok(number)
    }
}

/// The candidates of these names, where the names come in the order of the candidates.
pub fn retained_names<'c>(
    alloc: Global,
    candidates: &[Name],
    names: &[&'c [u8]],
) -> Result<Retained<'c>, AllocError>
    ensures { IfOk result (IsRetained (map id_of candidates.now) (texts names.now)) }
{
    let mut made = Vec::new(alloc);
    let mut number = 0;
    for candidate in candidates {
        number = mark(&mut made, candidate, names, number)?;
    }
    if number < names.len() {
        Ok(Retained::Unplaced(names[number]))
    } else {
        Ok(Retained::Marks(made))
    }
}
