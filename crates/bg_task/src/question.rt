//! Questions.
use crate::prepared::Prepared;
use bg_ast::resolved::Resolved;
use bg_places::Place;

/// Whether the check of this place of a program can fail under this set of candidates, where its implementation is prepared.
#[derive(Clone, Copy)]
pub struct Question<'q, 'p> {
    pub program: &'q Resolved,
    pub prepared: &'q Prepared<'p>,
    pub place: &'q Place,
    pub set: &'q [bool],
}
