//! The places of an implementation that have no candidate.
ghost use Rattle.std.specs.Prelude.{◌≡◌, ◌++◌, ◌∷◌, [], cond, is_none, filter, Some, IfOk, OnOk, slice_get};
ghost use Rattle.bg_ast.specs.Resolved as r;
ghost use Rattle.bg_ast.specs.Views.{program_of};
ghost use Rattle.bg_places.specs.Placed.{placed_impl};
ghost use Rattle.bg_places.specs.Views.{placed_in};
ghost use Rattle.bg_sound.specs.Told.{is_ordinary};

use bg_ast::resolved::Resolved;
use bg_places::{Place, places_of};
use std::alloc::{AllocError, Global};

/// Adds a place where it has no candidate.
fn add(made: &mut Vec<Place>, place: &Place) -> Result<(), AllocError>
    ensures { OnOk result (made.new.items ≡ made.old.items ++ cond (is_none place.now.candidate) (place.now ∷ []) []) }
{
    if place.candidate.is_some() {
        return Ok(());
    }
    made.push(*place)?;
    Ok(())
}

/// Those of these places that have no candidate, in their order.
fn without_candidate(alloc: Global, places: &[Place]) -> Result<Vec<Place>, AllocError>
    ensures { IfOk result (λ made. placed_in made.items ≡ filter is_ordinary (placed_in places.now)) }
{
    let mut made = Vec::new(alloc);
    for place in places {
        add(&mut made, place)?;
    }
    Ok(made)
}

/// The ordinary places of the implementation with this number, in the order of the text.
///
/// Only want of memory is an error.
pub fn ordinary_places(
    alloc: Global,
    program: &Resolved,
    number: usize,
) -> Result<Vec<Place>, AllocError>
    ensures { IfOk result (λ made. (m : r.Impl) → slice_get (program_of program.now).implementations number ≡ Some m → placed_in made.items ≡ filter is_ordinary (placed_impl (program_of program.now).procedures number m)) }
{
    let places = places_of(alloc, program, number)?;
    without_candidate(alloc, &places)
}
