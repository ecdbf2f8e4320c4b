//! Choices.
use crate::value::Value;

/// What a run is given where it has a choice: the number of a branch, or a value.
#[derive(Drop)]
pub enum Choice {
    Branch(u32),
    Chosen(Value),
}
