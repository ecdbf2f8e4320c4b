//! Places that need a section.
ghost use Rattle.std.specs.Prelude.{◌≡◌, Some, map};
ghost use Rattle.bg_text.specs.Views.{option_of};
ghost use Rattle.bg_ast.specs.Views.{candidate_of};
ghost use Rattle.bg_sense.specs.Clauses.{is_kept};
ghost use Rattle.bg_cert.specs.Walks.{has};
ghost use Rattle.bg_places.specs.Views.{placed_of, placed_in};
ghost use Rattle.bg_accept.specs.Tables.{is_required_in, is_needed_at, any_needed};

use bg_places::Place;

/// Whether a place needs a section: it has no candidate, or one of the set.
pub fn is_needed(set: &[bool], place: &Place) -> bool
    ensures { result ≡ is_kept (has set.now) (placed_of place.now).place.candidate }
{
    match place.candidate {
        None => true,
        Some(b) => (b.0 as usize) < set.len() && set[b.0 as usize],
    }
}

/// Whether one of these places does.
pub fn any_needed(set: &[bool], places: &[Place]) -> bool
    ensures { result ≡ any_needed (has set.now) (placed_in places.now) }
{
    for place in places {
        if is_needed(set, place) {
            return true;
        }
    }
    false
}

/// Whether the place with this number is there and needs a section.
pub fn is_needed_at(set: &[bool], places: &[Place], number: u128) -> bool
    ensures { result ≡ is_needed_at (has set.now) (placed_in places.now) number }
{
    number < places.len() as u128 && is_needed(set, &places[number as usize])
}

/// Whether the place with this number, of the implementation with this number, is there and needs a section.
pub fn is_required(set: &[bool], all: &[Vec<Place>], implementation: u128, place: u128) -> bool
    ensures { result ≡ is_required_in (has set.now) all.now implementation place }
{
    implementation < all.len() as u128 && is_needed_at(set, &all[implementation as usize], place)
}
