//! Endings.
use bg_base::OutOfRange;
use bg_places::Spot;

/// How a run ends: well, blocked by an assumption, at a check that fails, without the choice that it needs, at the first operation that
/// leaves 128 bits, or at something that has another type than it should.
#[derive(Clone, Copy, PartialEq, Eq)]
pub enum Ending {
    Ended,
    Blocked,
    Failed(Spot),
    BadChoice,
    OutOfRange(OutOfRange),
    NoValues,
}

/// How a part of a run leaves off: the run goes on, or it is over.
#[derive(Clone, Copy)]
pub enum Step {
    Goes,
    Over(Ending),
}

/// Where a block leads, counted from the next one; or the run is over.
#[derive(Clone, Copy)]
pub enum Way {
    To(usize),
    Over(Ending),
}
