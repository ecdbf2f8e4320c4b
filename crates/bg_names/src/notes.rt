//! The first fault so far.
ghost use Rattle.std.specs.Prelude.{◌≡◌, [], ◌∷◌, None};
ghost use Rattle.bg_names.specs.Faults.{rank_of, is_before, better, fault, unless};
ghost use Rattle.bg_names.specs.Views.{found_of, first_of};

use crate::error::FaultKind;
use bg_base::Pos;

/// A fault, with the name in the tree.
#[derive(Clone, Copy)]
pub struct Found<'a> {
    pub kind: FaultKind,
    pub pos: Pos,
    pub name: &'a [u8],
}

/// The first fault so far.
pub struct Notes<'a> {
    pub first: Option<Found<'a>>,
}

fn rank(kind: FaultKind) -> u8
    ensures { result ≡ rank_of kind }
{
    match kind {
        FaultKind::UnknownName => 0,
        FaultKind::Duplicate => 1,
        FaultKind::AssignsInput => 2,
        FaultKind::NotModified => 3,
        FaultKind::BadTarget => 4,
        FaultKind::BadCandidateUse => 5,
        FaultKind::BadOld => 6,
        FaultKind::RecursiveFunction => 7,
        FaultKind::UnnamedArgument => 8,
    }
}

#[tactic(auto, unfolding(crate::specs::Faults::is_before))]
fn is_before(a: &Found, b: &Found) -> bool
    ensures { result ≡ is_before (found_of a.now) (found_of b.now) }
{
    a.pos.line < b.pos.line
        || (a.pos.line == b.pos.line
            && (a.pos.column < b.pos.column
                || (a.pos.column == b.pos.column && rank(a.kind) < rank(b.kind))))
}

/// Notes a fault.
pub fn note<'a>(notes: &mut Notes<'a>, kind: FaultKind, pos: Pos, name: &'a [u8])
    ensures { first_of notes.new ≡ better (first_of notes.old) (fault kind pos name.now ∷ []) }
{
    let found = Found { kind, pos, name };
    match notes.first {
        None => notes.first = Some(found),
        Some(first) => {
            if is_before(&found, &first) {
                notes.first = Some(found);
            }
        }
    }
}

/// Notes a fault, unless this holds.
pub fn note_unless<'a>(
    notes: &mut Notes<'a>,
    holds: bool,
    kind: FaultKind,
    pos: Pos,
    name: &'a [u8],
)
    ensures { first_of notes.new ≡ better (first_of notes.old) (unless holds (fault kind pos name.now)) }
{
    if !holds {
        note(notes, kind, pos, name);
    }
}
