//! A place and its word.
ghost use Rattle.std.specs.Prelude.{◌≡◌, ◌++◌, OnOk};
ghost use Rattle.bg_places.specs.Views.{placed_of};
ghost use Rattle.bg_told.specs.Places.{told_text};
ghost use Rattle.bg_told.specs.Views.{told_word};

use crate::put::put_word;
use crate::word::Word;
use bg_lines::put_place;
use bg_places::Place;
use std::alloc::AllocError;

/// A place and its word.
pub fn put_told(out: &mut Vec<u8>, word: Word, place: &Place) -> Result<(), AllocError>
    ensures { OnOk result (out.new.items ≡ out.old.items ++ told_text (told_word word) (placed_of place.now)) }
{
    out.extend_from_slice(b"  ")?;
    put_word(out, word)?;
    out.push(b' ')?;
    put_place(out, place)
}
