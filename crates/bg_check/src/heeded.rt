//! Numbers for terms of which lines say something, before anything is searched.
//!
//! Of these numbers nothing is claimed either. A line is wanted where its premise holds at the numbers so far and its conclusion doesn't, so
//! its conclusion alone is heeded.
use crate::easy::{Guess, easy, fixed_at};
use bg_term_table::{Line, Term};

/// What has this number gets a number that stays, if it is there.
fn fix(fixed: &mut [Option<i128>], j: usize, z: i128) {
    if j < fixed.len() {
        fixed[j] = Some(z);
    }
}

/// The number that stays of what has this number, if one does: one that is fixed or given.
fn stays(guess: &Guess, fixed: &[Option<i128>], j: usize) -> Option<i128> {
    match fixed_at(fixed, j) {
        Some(z) => Some(z),
        None => match (guess.given.get(j), guess.numbers.get(j)) {
            (Some(true), Some(z)) => Some(*z),
            _ => None,
        },
    }
}

/// Both have one number from now on: one that stays, if there is one.
fn join(guess: &Guess, fixed: &mut [Option<i128>], i: usize, j: usize) {
    match (stays(guess, fixed, i), stays(guess, fixed, j)) {
        (Some(z), _) => fix(fixed, j, z),
        (None, Some(z)) => fix(fixed, i, z),
        (None, None) => {
            if let Some(z) = guess.numbers.get(i) {
                fix(fixed, i, *z);
                fix(fixed, j, *z);
            }
        }
    }
}

/// The number that an update puts in, if that is easy to tell.
fn put_in(guess: &Guess, terms: &[Term], u: u32) -> Option<i128> {
    match terms.get(u as usize) {
        None => None,
        Some(t) => match t.args.get(1) {
            None => None,
            Some(e) => easy(&guess.numbers, e),
        },
    }
}

/// Heeds a line, where terms stand behind so many incarnations.
fn heed_line(guess: &Guess, fixed: &mut [Option<i128>], count: usize, terms: &[Term], line: &Line) {
    let at = |t: u32| count.saturating_add(t as usize);
    match line {
        Line::Congruent(a, b) => join(guess, fixed, at(*a), at(*b)),
        Line::Elsewhere(_, a, b) => join(guess, fixed, at(*a), at(*b)),
        Line::AtIndex(u, s) => {
            if let Some(z) = put_in(guess, terms, *u) {
                fix(fixed, at(*s), z);
            }
        }
        _ => {}
    }
}

/// Heeds lines, where terms stand behind so many incarnations.
pub fn heed(
    guess: &Guess,
    fixed: &mut [Option<i128>],
    count: usize,
    terms: &[Term],
    lines: &[Line],
) {
    for line in lines {
        heed_line(guess, fixed, count, terms, line);
    }
}
