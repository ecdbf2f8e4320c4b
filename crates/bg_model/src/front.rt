//! Choices that are picked.
use crate::pick::Pick;
use bg_formed::FormCmd;

/// The choices so far; and at a command of a block, the commands of forms from it on and the next new incarnation.
#[derive(Drop)]
pub struct Front<'a> {
    pub made: Vec<Pick>,
    pub left: &'a [FormCmd],
    pub next: usize,
}
