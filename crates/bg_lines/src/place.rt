//! A place in words.
ghost use Rattle.std.specs.Prelude.{◌≡◌, ◌++◌, OnOk};
ghost use Rattle.bg_places.specs.Views.{spot_of, placed_of};
ghost use Rattle.bg_lines.specs.Places.{kind_text, call_text, place_text};

use crate::put::put_position;
use bg_base::Pos;
use bg_places::{Place, Spot};
use std::alloc::AllocError;

/// What is checked.
fn put_kind(out: &mut Vec<u8>, spot: Spot) -> Result<(), AllocError>
    ensures { OnOk result (out.new.items ≡ out.old.items ++ kind_text (spot_of spot)) }
{
    match spot {
        Spot::Assert(_) => out.extend_from_slice(b"assert "),
        Spot::Entry(_) => out.extend_from_slice(b"invariant entry "),
        Spot::Turn(_) => out.extend_from_slice(b"invariant turn "),
        Spot::Call(_, _) => out.extend_from_slice(b"precondition "),
        Spot::Return(_, _) => out.extend_from_slice(b"postcondition "),
    }
}

/// Where the call stands, if there is one.
fn put_call(out: &mut Vec<u8>, call: Option<Pos>) -> Result<(), AllocError>
    ensures { OnOk result (out.new.items ≡ out.old.items ++ call_text call) }
{
    match call {
        None => Ok(()),
        Some(pos) => {
            put_position(out, pos)?;
            out.extend_from_slice(b" of ")
        }
    }
}

/// What is checked, and where.
pub fn put_place(out: &mut Vec<u8>, place: &Place) -> Result<(), AllocError>
    ensures { OnOk result (out.new.items ≡ out.old.items ++ place_text (placed_of place.now)) }
{
    put_kind(out, place.spot)?;
    put_call(out, place.call)?;
    put_position(out, place.pos)
}
