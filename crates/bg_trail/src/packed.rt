//! Literals with their reasons in three words each, since a search keeps many: a long one some hundred thousand.

use crate::lemmas::Link;
use crate::reason::Reason;
use crate::span::{numbers_of, span_from};

/// A literal, below 2^29, with the kind of its reason above it, and the numbers of the reason.
#[derive(Clone, Copy)]
pub struct Packed {
    head: u32,
    first: u32,
    second: u32,
}

const LITERAL_BITS: u32 = 29;

/// The bits of a literal.
const LITERAL: u32 = (1 << LITERAL_BITS) - 1;

/// The kind of a reason, and its numbers.
fn numbers(reason: Reason) -> (u32, u32, u32) {
    match reason {
        Reason::Decision => (0, 0, 0),
        Reason::Clause(c) => (1, c, 0),
        Reason::Unit(c, l) => (2, c, l),
        Reason::Both(a, b) => (3, a, b),
        Reason::Rows(span) => {
            let (from, len) = numbers_of(span);
            (4, from, len)
        }
    }
}

/// A literal with its reason, packed. Of a literal of more than 29 bits the others are lost; a formula has no such literal, and what is
/// proposed is checked.
pub fn pack(link: Link) -> Packed {
    let (kind, first, second) = numbers(link.reason);
    Packed {
        head: (link.literal & LITERAL) | (kind << LITERAL_BITS),
        first,
        second,
    }
}

/// The literal with its reason.
pub fn unpack(p: Packed) -> Link {
    let reason = match p.head >> LITERAL_BITS {
        0 => Reason::Decision,
        1 => Reason::Clause(p.first),
        2 => Reason::Unit(p.first, p.second),
        3 => Reason::Both(p.first, p.second),
        _ => Reason::Rows(span_from(p.first, p.second)),
    };
    Link {
        literal: p.head & LITERAL,
        reason,
    }
}
