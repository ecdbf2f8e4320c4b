//! Which halves of solved equalities a derivation has made.
use crate::equality::{Dep, Equality, Solved};
use bg_simplex::Lit;
use std::alloc::{AllocError, Global};

/// Where the row of an equality's half stands among the steps.
#[derive(Clone, Copy)]
pub enum Half {
    Absent,
    Wanted,
    Made(usize),
}

/// Of each equality the half `term + rest <= k` and its opposite.
#[derive(Drop)]
pub struct Halves {
    pub ups: Vec<Half>,
    pub downs: Vec<Half>,
}

/// None is made.
pub fn no_halves(alloc: Global, s: &Solved) -> Result<Halves, AllocError> {
    let ups = vec![in alloc; Half::Absent; s.equalities.len()]?;
    let downs = ups.to_vec(alloc)?;
    Ok(Halves { ups, downs })
}

/// Where a half stands.
pub fn half_at(h: &Halves, equality: usize, up: bool) -> Half {
    let side = if up { &h.ups } else { &h.downs };
    match side.get(equality) {
        Some(half) => *half,
        None => Half::Absent,
    }
}

/// Says of one where it stands.
fn put_at(side: &mut Vec<Half>, at: usize, half: Half) {
    if let Some(place) = side.get_mut(at) {
        *place = half;
    }
}

/// Says where a half stands.
pub fn put_half(h: &mut Halves, equality: usize, up: bool, half: Half) {
    if up {
        put_at(&mut h.ups, equality, half);
    } else {
        put_at(&mut h.downs, equality, half);
    }
}

/// All are absent again.
pub fn forget_all(h: &mut Halves) {
    for at in 0..h.ups.len() {
        put_half(h, at, true, Half::Absent);
        put_half(h, at, false, Half::Absent);
    }
}

/// The half that is added where an equality was taken so many times from a row; from the row's opposite where `denied`.
pub fn is_up(dep: Dep, denied: bool) -> bool {
    (dep.times < 0) != denied
}

/// The literal of a half, and what was taken from its row.
pub fn side(e: &Equality, up: bool) -> (Lit, &[Dep]) {
    if up {
        (e.up, &e.up_deps)
    } else {
        (e.down, &e.down_deps)
    }
}

/// The halves that are taken here are wanted, where they aren't made. Answers how many equalities stand up to the last of them.
pub fn want(h: &mut Halves, deps: &[Dep], denied: bool) -> usize {
    let mut count: usize = 0;
    for dep in deps {
        let at = dep.equality as usize;
        let up = is_up(*dep, denied);
        if let Half::Absent = half_at(h, at, up) {
            put_half(h, at, up, Half::Wanted);
        }
        count = count.max(at.saturating_add(1));
    }
    count
}

/// What a half that is wanted was made of is wanted too.
fn want_below(h: &mut Halves, s: &Solved, at: usize, up: bool) {
    if let (Half::Wanted, Some(e)) = (half_at(h, at, up), s.equalities.get(at)) {
        let (_, deps) = side(e, up);
        let _ = want(h, deps, false);
    }
}

/// All that the halves of the first `count` equalities that are wanted were made of is wanted too: only earlier ones.
pub fn want_all(h: &mut Halves, s: &Solved, count: usize) {
    for at in (0..count).rev() {
        want_below(h, s, at, true);
        want_below(h, s, at, false);
    }
}
