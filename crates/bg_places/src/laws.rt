//! Laws of places.
ghost use Rattle.std.specs.Prelude.{◌≡◌, map};
ghost use Rattle.bg_ast.specs.Resolved.{Program};
ghost use Rattle.bg_ast.specs.Meaning.{meaning_of};
ghost use Rattle.bg_sense.specs.Places as s;
ghost use Rattle.bg_places.specs.Placed.{placed, place_in};

/// The places with their positions are, positions apart, the places of the program that is meant.
pub fn placed_are_places()
    ensures { (p : Program) → map place_in (placed p) ≡ s.places (meaning_of p) }
{}
