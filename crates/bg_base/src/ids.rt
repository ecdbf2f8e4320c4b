//! Numbers, each of a type of its own, so that none is taken for another.

/// The number of a name in its table.
#[derive(Clone, Copy, PartialEq, Eq, Debug)]
pub struct NameId(pub u32);

/// The number of a place, counted through all implementations.
#[derive(Clone, Copy, PartialEq, Eq, Debug)]
pub struct PlaceId(pub u32);

/// The number of a candidate, by declaration.
#[derive(Clone, Copy, PartialEq, Eq, Debug)]
pub struct CandId(pub u32);

/// The number of a target: a place that has a candidate.
#[derive(Clone, Copy, PartialEq, Eq, Debug)]
pub struct TargetId(pub u32);
