//! Lines that are told, and the selects that they bring.
ghost use Rattle.std.specs.Prelude.{◌≡◌, ℕ, ◌+◌, ◌<◌, ◌≤◌, ◌∷◌, ◌⊎◌, [], List, length, IfOk, OnOk};
ghost use Rattle.bg_ast.specs.Values.{Ty};
ghost use Rattle.bg_terms.specs.Terms.{Term};
ghost use Rattle.bg_wanted.specs.Telling.{AreTold, Fits};

use crate::class::number;
use bg_term_table::Line;
use std::alloc::{AllocError, Global};
use std::collections::BTreeMap;

/// Lines so far; the number of the select of each map at the index of each term that one of them brings; and how many terms there are with
/// those that they bring.
#[derive(Drop)]
pub struct Wants {
    pub made: Vec<Line>,
    pub picked: BTreeMap<(u32, u32), u32>,
    pub next: u32,
}

/// No lines where there are so many terms.
pub fn nothing(alloc: Global, terms: usize) -> Result<Wants, AllocError>
    ensures told { IfOk result (λ w. (incs : List Ty) (ts : List Term) → terms ≡ length ts → AreTold incs ts w []) }
    ensures none { IfOk result (λ w. w.made.items ≡ []) }
{
    let next = number(terms)?;
    Ok(Wants {
        made: Vec::new(alloc),
        picked: BTreeMap::new(alloc),
        next,
    })
}

/// One more; 2^32 count as want of memory.
fn one_more(n: u32) -> Result<u32, AllocError>
    ensures { IfOk result (λ k. k ≡ n + 1) }
{
    match n.checked_add(1) {
        Some(k) => Ok(k),
        None => Err(AllocError),
    }
}

/// A line that brings the select of the map with this number at the index of a term, and its number.
fn pick(wants: &mut Wants, map: u32, a: u32) -> Result<u32, AllocError>
    ensures told { IfOk result (λ p. (incs : List Ty) (ts : List Term) (loose : List ℕ) → Fits incs ts map a → AreTold incs ts wants.old loose → AreTold incs ts wants.new (p ∷ loose) × ((length ts ≤ p) × (p < wants.new.next))) }
    ensures more { OnOk result (wants.old.next ≤ wants.new.next) }
{
    let s = wants.next;
    let next = one_more(s)?;
    wants.made.push(Line::Pick(map, a))?;
    wants.picked.insert((map, a), s)?;
    wants.next = next;
    Ok(s)
}

/// The number of the select of the map with this number at the index of a term, which a line brings.
pub fn select(wants: &mut Wants, map: u32, a: u32) -> Result<u32, AllocError>
    ensures told { IfOk result (λ p. (incs : List Ty) (ts : List Term) (loose : List ℕ) → Fits incs ts map a → AreTold incs ts wants.old loose → AreTold incs ts wants.new (p ∷ loose) × ((length ts ≤ p) × (p < wants.new.next))) }
    ensures more { OnOk result (wants.old.next ≤ wants.new.next) }
{
    match wants.picked.get(&(map, a)).copied() {
        Some(s) => Ok(s),
        None => pick(wants, map, a),
    }
}

/// That an update gives its new value at its index, by a select of it there.
pub fn tell_here(wants: &mut Wants, u: u32, s: u32) -> Result<(), AllocError>
    ensures some { OnOk result (wants.new.made.items ≡ [] → ⊥) }
    ensures told { OnOk result ((incs : List Ty) (ts : List Term) → u < length ts → length ts ≤ s → s < wants.old.next → AreTold incs ts wants.old (s ∷ []) → AreTold incs ts wants.new []) }
    ensures same { OnOk result (wants.new.next ≡ wants.old.next) }
{
    wants.made.push(Line::AtIndex(u, s))?;
    Ok(())
}

/// That an update gives elsewhere what its map does, by selects of both there, of which one at least comes in.
pub fn tell_elsewhere(wants: &mut Wants, u: u32, s: u32, r: u32) -> Result<(), AllocError>
    ensures some { OnOk result (wants.new.made.items ≡ [] → ⊥) }
    ensures told { OnOk result ((incs : List Ty) (ts : List Term) → u < length ts → s < wants.old.next → r < wants.old.next → (length ts ≤ s) ⊎ (length ts ≤ r) → AreTold incs ts wants.old (r ∷ s ∷ []) → AreTold incs ts wants.new []) }
{
    wants.made.push(Line::Elsewhere(u, s, r))?;
    Ok(())
}
