//! Types of what stands before terms.
use bg_kinds::ValueType;

/// The types of incarnations, and those of what functions give, by number.
#[derive(Clone, Copy)]
pub struct Around<'a> {
    pub incarnations: &'a [ValueType],
    pub results: &'a [ValueType],
}
