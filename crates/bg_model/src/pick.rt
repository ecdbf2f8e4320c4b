//! What a walk takes where it has a choice.

/// The number of a branch, or the incarnation of which the value is chosen.
#[derive(Clone, Copy)]
pub enum Pick {
    Branch(u32),
    Incarnation(usize),
}
