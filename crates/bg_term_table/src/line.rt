//! Lines of terms and instances.

/// What comes in behind terms: the select of a map at the index of a term that is a select or an update; the parts of an index at which two
/// maps differ, and the selects of both maps there; or an instance, which is so under every interpretation. Maps have their numbers among
/// incarnations and terms, all else among terms.
#[derive(Clone, Copy, PartialEq, Eq, Debug)]
pub enum Line {
    Pick(u32, u32),
    Names(u32, u32),
    /// Where the arguments of these terms of one head are equal, so are the terms.
    Congruent(u32, u32),
    /// A select of an update at its index is its new value.
    AtIndex(u32, u32),
    /// A select of an update elsewhere is the select of its map there.
    Elsewhere(u32, u32, u32),
    /// Where selects at the index at which their maps differ are equal, so are the maps.
    Apart(u32, u32),
}
