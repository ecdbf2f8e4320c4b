//! Faults, and which of them is answered.
ghost use Rattle.std.specs.Prelude.{◌≡◌};
ghost use Rattle.bg_ast.specs.Values.{is_map};
ghost use Rattle.bg_kinds.specs.Faults.{position_of, precedes, earlier, first_of, meets, against};
ghost use Rattle.bg_kinds.specs.FaultViews.{wanted_of, fault_of, best_of};
ghost use Rattle.bg_kinds.specs.Views.{ref_of};

use crate::kinds::{TypeRef, is_same_type};
use bg_base::Pos;

/// What is wanted of an expression: a map of any type, or this type.
#[derive(Clone, Copy)]
pub enum Wanted<'a> {
    SomeMap,
    Wants(TypeRef<'a>),
}

/// A fault, with its position.
#[derive(Clone, Copy)]
pub enum Found<'a> {
    MapIndex(Pos),
    Arity(Pos),
    Mismatch(Pos, Wanted<'a>, TypeRef<'a>),
    Nonlinear(Pos),
}

/// Where a fault stands.
fn position(fault: Found<'_>) -> Pos
    ensures { result ≡ position_of (fault_of fault.entry) }
{
    match fault {
        Found::MapIndex(p) => p,
        Found::Arity(p) => p,
        Found::Mismatch(p, _, _) => p,
        Found::Nonlinear(p) => p,
    }
}

fn precedes(p: Pos, q: Pos) -> bool
    ensures { result ≡ precedes p q }
{
    p.line < q.line || (p.line == q.line && p.column < q.column)
}

/// Keeps the better of what was found before and one more fault.
pub fn note<'a>(best: &mut Option<Found<'a>>, fault: Found<'a>)
    ensures { best_of best.new ≡ earlier (best_of best.old) (fault_of fault.entry) }
{
    let better = match *best {
        None => true,
        Some(found) => precedes(position(fault), position(found)),
    };
    if better {
        *best = Some(fault);
    }
}

#[tactic(auto, using(crate::proofs::Types::is_map_tower))]
fn is_map(t: TypeRef<'_>) -> bool
    ensures { result ≡ is_map (ref_of t.entry) }
{
    !t.maps.is_empty()
}

/// Whether a type is one that is wanted.
fn meets(wanted: Wanted<'_>, found: TypeRef<'_>) -> bool
    ensures { result ≡ meets (wanted_of wanted.entry) (ref_of found.entry) }
{
    match wanted {
        Wanted::SomeMap => is_map(found),
        Wanted::Wants(t) => is_same_type(t, found),
    }
}

/// Notes where an expression that begins at `p` has a type that isn't wanted; true where it is wanted.
pub fn want<'a>(
    best: &mut Option<Found<'a>>,
    p: Pos,
    wanted: Wanted<'a>,
    found: TypeRef<'a>,
) -> bool
    ensures best { best_of best.new ≡ first_of (best_of best.old) (against p (wanted_of wanted.entry) (ref_of found.entry)) }
    ensures fits { result ≡ meets (wanted_of wanted.entry) (ref_of found.entry) }
{
    let fits = meets(wanted, found);
    if !fits {
        note(best, Found::Mismatch(p, wanted, found));
    }
    fits
}
