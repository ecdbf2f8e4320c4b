//! What is answered of a certificate.
use bg_places::Place;

/// The certificate is accepted; or the first reason why not: its axioms have no interpretation, it retains this name, this required
/// place has no section that its clauses accept, or the section of this implementation and place, from 0, is of no required place
/// or out of order.
#[derive(Clone, Copy)]
pub enum Answer<'c> {
    Accepted,
    NoInterp,
    NotRetained(&'c [u8]),
    NotShown(Place),
    NotRequired(u128, u128),
}
