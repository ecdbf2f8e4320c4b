//! Types that are kept somewhere.
use bg_kinds::{Keys, TypeRef};

/// A type, or that of maps with these index types and this result type.
#[derive(Clone, Copy)]
pub enum Seen<'a> {
    Whole(TypeRef<'a>),
    Map(&'a Keys, TypeRef<'a>),
}
