//! Values that are assumed beside those of a path, and what follows from them by the clauses.
use crate::hint::Hint;
use crate::index::Index;
use crate::problem::Problem;
use bg_cert::{Trail, decides};
use bg_formula::{Clauses, Literal};
use std::alloc::{AllocError, Global};

/// How many values may follow from one.
const MOST_VALUES: u32 = 1000;

/// The value that an atom had behind each of the first `count` literals of the clause that was looked at as the `turn`th.
#[derive(Clone, Copy)]
pub struct Common {
    pub turn: u64,
    pub count: u32,
    pub value: bool,
}

/// Values that are assumed beside those of a path: each candidate outside the set is to be false, and for a while other values are
/// assumed, in this order. Besides, the values that literals of a clause have in common; how many clauses may still be looked at for
/// this split; how many splits are chosen without a look from now on, and were after the last look in vain; and whether there are looks
/// at all.
#[derive(Drop)]
pub struct Probe {
    pub assumed: Vec<Option<bool>>,
    pub order: Vec<u32>,
    pub common: Vec<Common>,
    pub turn: u64,
    pub left: u32,
    pub rest: u32,
    pub pause: u32,
    pub looks: bool,
}

/// What a clause is under a path and what is assumed.
#[derive(Clone, Copy)]
enum State {
    False,
    Unit(Literal),
    Other,
}

/// Whether the set has a candidate.
fn is_in(set: &[bool], c: usize) -> bool {
    match set.get(c) {
        Some(yes) => *yes,
        None => false,
    }
}

/// Of each atom of a candidate outside the set that it is false. Such an atom stands in clauses as a denial alone, so this makes no
/// clause false: a path on which it isn't decided has only to go round its clauses. Takes time for each atom and each candidate.
fn absent(alloc: Global, f: &Clauses, set: &[bool]) -> Result<Vec<Option<bool>>, AllocError> {
    let mut values = vec![in alloc; None; f.atoms.len()]?;
    for (c, atom) in f.candidates.iter().enumerate() {
        if let Some(a) = atom {
            if let Some(v) = values.get_mut(*a as usize) {
                if !is_in(set, c) {
                    *v = Some(false);
                }
            }
        }
    }
    Ok(values)
}

/// A probe for the atoms of a formula, where the candidates outside the set are taken for false.
pub fn new_probe(alloc: Global, f: &Clauses, set: &[bool]) -> Result<Probe, AllocError> {
    let atoms = f.atoms.len();
    let nothing = Common {
        turn: 0,
        count: 0,
        value: false,
    };
    Ok(Probe {
        assumed: absent(alloc, f, set)?,
        order: Vec::new(alloc),
        common: vec![in alloc; nothing; atoms]?,
        turn: 0,
        left: 0,
        rest: 0,
        pause: 0,
        looks: true,
    })
}

/// The value of an atom that the path decides or that is assumed.
pub fn value_of(trail: &Trail, p: &Probe, a: u32) -> Option<bool> {
    if decides(trail, a as usize, true) {
        return Some(true);
    }
    if decides(trail, a as usize, false) {
        return Some(false);
    }
    match p.assumed.get(a as usize) {
        Some(v) => *v,
        None => None,
    }
}

/// Whether a literal of the clause is true by what the path decides or what is assumed.
pub fn is_met(trail: &Trail, p: &Probe, clause: &[Literal]) -> bool {
    for l in clause {
        if let Some(v) = value_of(trail, p, l.atom) {
            if v == l.sign {
                return true;
            }
        }
    }
    false
}

fn state_of(trail: &Trail, p: &Probe, clause: &[Literal]) -> State {
    let mut state = State::False;
    for l in clause {
        match value_of(trail, p, l.atom) {
            Some(v) => {
                if v == l.sign {
                    return State::Other;
                }
            }
            None => match state {
                State::False => state = State::Unit(*l),
                _ => return State::Other,
            },
        }
    }
    state
}

/// Assumes a literal; one for which there is no memory isn't assumed.
pub fn assume(p: &mut Probe, l: Literal) {
    if p.order.push(l.atom).is_ok() {
        if let Some(v) = p.assumed.get_mut(l.atom as usize) {
            *v = Some(l.sign);
        }
    }
}

/// Takes back what is assumed.
pub fn forget(p: &mut Probe) {
    while let Some(a) = p.order.pop() {
        if let Some(v) = p.assumed.get_mut(a as usize) {
            *v = None;
        }
    }
}

/// Assumes what a clause asks for. True where it is false.
fn visit(f: &Clauses, trail: &Trail, p: &mut Probe, hint: Hint) -> bool {
    let Hint::Nth(k) = hint else {
        return false;
    };
    let Some(clause) = f.clauses.get(k) else {
        return false;
    };
    match state_of(trail, p, clause) {
        State::False => true,
        State::Unit(l) => {
            assume(p, l);
            false
        }
        State::Other => false,
    }
}

/// The clauses in which an assumed atom's literal is false.
fn touched<'a>(i: &'a Index, p: &Probe, a: u32) -> &'a [Hint] {
    let lists = match p.assumed.get(a as usize) {
        Some(Some(true)) => &i.no,
        _ => &i.yes,
    };
    match lists.get(a as usize) {
        Some(hints) => hints.as_slice(),
        None => &[],
    }
}

fn visit_all(problem: &Problem<'_>, trail: &Trail, p: &mut Probe, a: u32) -> bool {
    for hint in touched(problem.index, p, a) {
        if visit(problem.formula, trail, p, *hint) {
            return true;
        }
    }
    false
}

/// Assumes what follows from what is assumed, up to a limit. True where a clause becomes false.
pub fn spread(problem: &Problem<'_>, trail: &Trail, p: &mut Probe) -> bool {
    for at in 0..MOST_VALUES {
        let Some(a) = p.order.get(at as usize) else {
            return false;
        };
        let a = *a;
        if visit_all(problem, trail, p, a) {
            return true;
        }
    }
    false
}
