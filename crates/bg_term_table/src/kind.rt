//! What terms are looked up by.

/// What makes a term, but for the types of maps: the function with this number, that it selects, that it updates, or the number of its
/// part of an index.
#[derive(Clone, Copy, PartialEq, Eq, PartialOrd, Ord, Debug)]
pub enum Kind {
    Function(u32),
    Select,
    Update,
    Part(u32),
}
