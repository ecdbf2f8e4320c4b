//! A place.
ghost use Rattle.std.specs.Prelude.{◌≡◌};
ghost use Rattle.bg_places.specs.Views.{spot_of, spot_in};

use bg_base::{CandId, Pos};

/// A check by the number of its clause: an assertion, an invariant on arrival or after a turn, a precondition of the call with this
/// number, a postcondition of the implementation with this number.
#[derive(Clone, Copy, PartialEq, Eq, Debug)]
pub enum Spot {
    Assert(u32),
    Entry(u32),
    Turn(u32),
    Call(u32, u32),
    Return(usize, u32),
}

/// A check of an implementation, by its number from 0, with the candidate of its clause; the position of the clause's first word,
/// and of a precondition that of the call.
#[derive(Clone, Copy, Debug)]
pub struct Place {
    pub implementation: usize,
    pub spot: Spot,
    pub candidate: Option<CandId>,
    pub pos: Pos,
    pub call: Option<Pos>,
}

/// Checks of clauses that stand together.
#[derive(Clone, Copy)]
pub enum Group {
    Assert,
    Entry,
    Turn,
    Call(u32),
    Return(usize),
}

/// The check of the clause with this number.
pub fn spot_at(group: Group, clause: u32) -> Spot
    ensures { spot_of result ≡ spot_in group clause }
{
    match group {
        Group::Assert => Spot::Assert(clause),
        Group::Entry => Spot::Entry(clause),
        Group::Turn => Spot::Turn(clause),
        Group::Call(site) => Spot::Call(site, clause),
        Group::Return(implementation) => Spot::Return(implementation, clause),
    }
}
