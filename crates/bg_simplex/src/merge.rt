//! Sums of lines' parts.
use crate::fraction::{Fraction, is_lost, plus, times};
use crate::line::Part;
use std::alloc::{AllocError, Global};

/// How far the parts of two sums are read.
#[derive(Clone, Copy)]
struct Read {
    first: usize,
    second: usize,
}

/// The next part of a sum and k times another.
fn next(a: &[Part], k: Fraction, b: &[Part], read: &mut Read) -> Option<Part> {
    match (a.get(read.first), b.get(read.second)) {
        (None, None) => None,
        (Some(p), Some(q)) if p.column == q.column => {
            read.first = read.first.saturating_add(1);
            read.second = read.second.saturating_add(1);
            Some(Part {
                column: p.column,
                seat: p.seat,
                by: plus(p.by, times(k, q.by)),
            })
        }
        (Some(p), Some(q)) if p.column < q.column => {
            read.first = read.first.saturating_add(1);
            Some(*p)
        }
        (Some(p), None) => {
            read.first = read.first.saturating_add(1);
            Some(*p)
        }
        (_, Some(q)) => {
            read.second = read.second.saturating_add(1);
            Some(Part {
                column: q.column,
                seat: q.seat,
                by: times(k, q.by),
            })
        }
    }
}

/// The first sum and k times the second, with the first one's seats. Takes time for each part.
pub fn merged(alloc: Global, a: &[Part], k: Fraction, b: &[Part]) -> Result<Vec<Part>, AllocError> {
    let most = a.len().saturating_add(b.len());
    let mut made = Vec::with_capacity(alloc, most)?;
    let mut read = Read {
        first: 0,
        second: 0,
    };
    for _ in 0..most {
        let Some(part) = next(a, k, b, &mut read) else {
            break;
        };
        if part.by.num != 0 || is_lost(part.by) {
            made.push(part)?;
        }
    }
    Ok(made)
}

/// Whether a number of these left 128 bits.
pub fn has_lost(parts: &[Part]) -> bool {
    for part in parts {
        if is_lost(part.by) {
            return true;
        }
    }
    false
}
