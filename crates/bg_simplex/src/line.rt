//! Lines.
use crate::fraction::{Fraction, whole};

/// So many times a column, and the seat that the line has among those of the column.
#[derive(Clone, Copy)]
pub struct Part {
    pub column: u32,
    pub seat: u32,
    pub by: Fraction,
}

/// That a basic column is the sum of these parts, which stand by column, each column once and none 0 times. A line that *rests* has no
/// parts: its basic column stands for a sum that was given, and has no bounds, and its value isn't kept.
#[derive(Drop)]
pub struct Line {
    pub basic: u32,
    pub parts: Vec<Part>,
    pub rests: bool,
}

/// Parts that add up to 0: these, and a basic column -1 times.
#[derive(Clone, Copy)]
pub struct Zero<'a> {
    pub parts: &'a [Part],
    pub basic: u32,
}

/// How many times a column stands in these parts, if it does.
pub fn by_of(parts: &[Part], column: u32) -> Option<Fraction> {
    match parts.binary_search_by_key(&column, |p| p.column) {
        Ok(at) => match parts.get(at) {
            Some(part) => Some(part.by),
            None => None,
        },
        Err(_) => None,
    }
}

/// How many parts there are that add up to 0.
pub fn count_parts(zero: Zero<'_>) -> usize {
    zero.parts.len().saturating_add(1)
}

/// One of the parts that add up to 0; the basic column's is the last.
pub fn part_at(zero: Zero<'_>, at: usize) -> Part {
    match zero.parts.get(at) {
        Some(part) => *part,
        None => Part {
            column: zero.basic,
            seat: 0,
            by: whole(-1),
        },
    }
}
