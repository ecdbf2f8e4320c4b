//! Conflicts on paths made by hand: what clashes, what only an elimination finds, what is taken back; and a walk on which
//! the answers are those of an elimination of all rows.
use self::Move::{Anew, AtMost, Finds, FindsNone, Notes, On, Undo};
use crate::made::{Given, formula};
use bg_cert::{Decision, Trail, decide, first_trail, rows_on, undo_to};
use bg_conflict::{Ledger, conflict, new_ledger};
use bg_elim::{Found, refute_or_order};
use bg_formula::Clauses;
use bg_rows::{Step, derives};
use std::alloc::{AllocError, Global};
use std::test::Fail;

/// What is done on a path, or found there.
#[derive(Clone, Copy)]
enum Move {
    /// An atom is decided.
    On(usize, bool),
    /// A bound is decided.
    AtMost(u32, i128, bool),
    /// All but the first decisions are taken back.
    Undo(usize),
    /// The ledger is a new one.
    Anew,
    /// Of the decisions from this one on, and of the whole or not, a conflict is found.
    Finds(usize, bool),
    /// No conflict is found.
    FindsNone(usize, bool),
    /// So many rows became the nearest of their class, and the last elimination in vain saw so many of them.
    Notes(usize, usize),
}

/// A formula, a path of decisions on its atoms, and the ledger of its conflicts.
#[derive(Drop)]
struct Walk {
    f: Clauses,
    trail: Trail,
    ledger: Ledger,
}

/// The start of a path over these rows, of which row i has atom i, and three truth variables.
fn start(alloc: Global, given: &[Given]) -> Result<Walk, Fail> {
    let f = formula(alloc, given, 3, &[])?;
    let trail = first_trail(alloc, f.atoms.len())?;
    let ledger = new_ledger(alloc, &f)?;
    Ok(Walk { f, trail, ledger })
}

/// Whether steps derive a false row from those of a path.
fn is_derived(alloc: Global, w: &Walk, steps: &[Step]) -> Result<bool, AllocError> {
    let path = rows_on(alloc, &w.f.atoms, &w.trail.decisions)?;
    derives(alloc, &path, steps)
}

/// Whether a conflict is found; each is derived from the path's rows.
fn told(alloc: Global, w: &mut Walk, from: usize, whole: bool) -> Result<bool, Fail> {
    match conflict(alloc, &w.f, &w.trail, &mut w.ledger, from, whole)? {
        Some(steps) => {
            if is_derived(alloc, w, &steps)? {
                Ok(true)
            } else {
                Err("no derivation".into())
            }
        }
        None => Ok(false),
    }
}

/// Whether a decision can be made.
fn decides(trail: &mut Trail, m: Decision) -> Result<bool, AllocError> {
    if let Decision::Atom(a, _) = m {
        if a >= trail.counts.len() {
            return Ok(false);
        }
    }
    decide(trail, m)?;
    Ok(true)
}

/// Whether a move can be done, or finds what it says.
fn goes(alloc: Global, w: &mut Walk, m: Move) -> Result<bool, Fail> {
    match m {
        On(a, sign) => Ok(decides(&mut w.trail, Decision::Atom(a, sign))?),
        AtMost(x, k, sign) => Ok(decides(&mut w.trail, Decision::AtMost(x, k, sign))?),
        Undo(n) => {
            undo_to(&mut w.trail, n);
            Ok(true)
        }
        Anew => {
            w.ledger = new_ledger(alloc, &w.f)?;
            Ok(true)
        }
        Finds(from, whole) => told(alloc, w, from, whole),
        FindsNone(from, whole) => Ok(!told(alloc, w, from, whole)?),
        Notes(all, seen) => Ok(w.ledger.log.len() == all && w.ledger.told == seen),
    }
}

/// Rows, and moves.
type Path = (&'static [Given], &'static [Move]);

/// Two rows with opposite entries, one of them not divided by what its coefficients share, among truth variables, a weaker
/// row and one of other variables.
const TWO_ROWS: Path = (
    &[
        (&[(0, 2), (1, -2)], 7),
        (&[(0, 1), (1, -1)], 9),
        (&[(2, 1)], 5),
        (&[(0, -1), (1, 1)], -3),
        (&[(0, -1), (1, 1)], -4),
    ],
    &[
        On(5, true),
        On(2, true),
        On(0, true),
        On(6, true),
        On(1, true),
        On(7, true),
        On(3, true),
        FindsNone(0, true),
        On(4, true),
        Finds(7, false),
    ],
);

/// A row is always true or always false by itself; and denials are rows as well.
const ONE_ROW: Path = (
    &[(&[], 0), (&[], -1), (&[(0, 1)], 4)],
    &[
        On(0, true),
        On(1, false),
        On(2, true),
        FindsNone(0, true),
        On(1, true),
        Finds(3, false),
        Undo(3),
        On(2, false),
        Finds(3, false),
    ],
);

/// What no row came nearer to since an elimination in vain isn't looked at again.
const IDLE: Path = (
    &[
        (&[(0, 1)], 3),
        (&[(0, 1), (1, -1)], 0),
        (&[(0, 1)], 5),
        (&[(2, 1)], 0),
        (&[(0, 1)], 2),
    ],
    &[
        On(0, true),
        On(1, true),
        FindsNone(0, true),
        Notes(2, 2),
        On(2, true),
        FindsNone(2, true),
        Notes(2, 2),
        On(3, true),
        FindsNone(3, false),
        Notes(3, 2),
        On(4, true),
        FindsNone(4, false),
        Notes(4, 2),
    ],
);

/// x <= y, y <= z and z <= x - 1.
const CIRCLE: &[Given] = &[
    (&[(0, 1), (1, -1)], 0),
    (&[(1, 1), (2, -1)], 0),
    (&[(0, -1), (2, 1)], -1),
];

/// Three rows that only an elimination refutes, with truth variables between them.
const ELIMINATED: Path = (
    CIRCLE,
    &[
        On(3, true),
        On(0, true),
        On(4, true),
        FindsNone(0, true),
        On(1, true),
        On(5, true),
        On(2, true),
        FindsNone(3, false),
        Finds(6, true),
    ],
);

/// A row that comes nearer brings back those connected with it which an elimination in vain saw.
const BROUGHT_BACK: Path = (
    CIRCLE,
    &[
        On(0, true),
        On(1, true),
        FindsNone(0, true),
        Notes(2, 2),
        On(2, true),
        Finds(2, true),
    ],
);

/// After a path that was taken back, the ledger answers as a new one does.
const TAKEN_BACK: Path = (
    CIRCLE,
    &[
        On(0, true),
        FindsNone(0, true),
        On(1, true),
        On(2, true),
        Finds(1, true),
        Undo(1),
        On(2, true),
        FindsNone(1, true),
        On(1, false),
        FindsNone(2, true),
        Undo(2),
        On(1, true),
        Finds(2, true),
        Anew,
        Finds(0, true),
        Undo(2),
        On(1, false),
        FindsNone(2, true),
        Anew,
        FindsNone(0, true),
    ],
);

/// Bounds clash with each other and with rows, and do not where they add up to 0.
const BOUNDS: Path = (
    &[(&[(0, 2)], 7), (&[(1, -1)], -5)],
    &[
        AtMost(1, 5, true),
        On(1, true),
        AtMost(0, 2, false),
        On(0, true),
        FindsNone(0, true),
        AtMost(0, 3, false),
        Finds(4, false),
        Undo(4),
        AtMost(1, 4, true),
        Finds(4, false),
    ],
);

/// Bounds at the ends of the range clash, but no elimination can add them; nor need a bound's variable be a term.
const ENDS: Path = (
    &[],
    &[
        AtMost(0, i128::MIN, true),
        AtMost(0, i128::MAX, false),
        FindsNone(0, false),
        AtMost(7, 1, true),
        AtMost(7, 1, false),
        Finds(2, false),
    ],
);

const PATHS: [Path; 8] = [
    TWO_ROWS,
    ONE_ROW,
    IDLE,
    ELIMINATED,
    BROUGHT_BACK,
    TAKEN_BACK,
    BOUNDS,
    ENDS,
];

/// Whether each move of a path goes.
fn goes_on(alloc: Global, path: Path) -> Result<bool, Fail> {
    let mut w = start(alloc, path.0)?;
    for m in path.1 {
        if !goes(alloc, &mut w, *m)? {
            return Ok(false);
        }
    }
    Ok(true)
}

#[test]
fn conflicts_are_found_where_rows_clash(rt: HostRuntime) -> Result<(), Fail> {
    for path in &PATHS {
        assert!(rt; goes_on(rt.alloc(), *path)?);
    }
    Ok(())
}

/// Differences of five variables, each with several bounds.
const DIFFERENCES: [Given; 28] = [
    (&[(0, 1), (1, -1)], -3),
    (&[(0, 1), (1, -1)], -1),
    (&[(0, 1), (1, -1)], 0),
    (&[(0, 1), (1, -1)], 2),
    (&[(0, 1), (2, -1)], -3),
    (&[(0, 1), (2, -1)], -1),
    (&[(0, 1), (2, -1)], 0),
    (&[(0, 1), (2, -1)], 2),
    (&[(1, 1), (2, -1)], -3),
    (&[(1, 1), (2, -1)], -1),
    (&[(1, 1), (2, -1)], 0),
    (&[(1, 1), (2, -1)], 2),
    (&[(1, 1), (3, -1)], -3),
    (&[(1, 1), (3, -1)], -1),
    (&[(1, 1), (3, -1)], 0),
    (&[(1, 1), (3, -1)], 2),
    (&[(2, 1), (4, -1)], -3),
    (&[(2, 1), (4, -1)], -1),
    (&[(2, 1), (4, -1)], 0),
    (&[(2, 1), (4, -1)], 2),
    (&[(3, 1), (4, -1)], -3),
    (&[(3, 1), (4, -1)], -1),
    (&[(3, 1), (4, -1)], 0),
    (&[(3, 1), (4, -1)], 2),
    (&[(0, 1), (4, -1)], -3),
    (&[(0, 1), (4, -1)], -1),
    (&[(0, 1), (4, -1)], 0),
    (&[(0, 1), (4, -1)], 2),
];

/// Whether an elimination of all rows of the path refutes them.
fn is_refuted(alloc: Global, w: &Walk) -> Result<bool, Fail> {
    let path = rows_on(alloc, &w.f.atoms, &w.trail.decisions)?;
    match refute_or_order(alloc, &path, 2000)? {
        Found::Refuted(_) => Ok(true),
        Found::Solvable(_) => Ok(false),
        Found::Unknown(_) => Err("a walk too wide".into()),
    }
}

/// Decides an atom that is drawn, and now and then takes decisions back. Tells whether a conflict is found, where the answer is that
/// of all rows; without the whole none need be found.
fn turn(alloc: Global, w: &mut Walk, draw: usize) -> Result<Option<bool>, Fail> {
    let (from, whole) = (w.trail.decisions.len(), draw & 64 == 0);
    let goes_on = goes(alloc, w, On(draw % 28, draw & 32 == 0))?;
    let found = told(alloc, w, from, whole)?;
    let refuted = is_refuted(alloc, w)?;
    if found || draw & 896 == 0 {
        undo_to(&mut w.trail, draw % 7);
    }
    let is_right = goes_on && (found == refuted || !whole && !found);
    Ok(if is_right { Some(found) } else { None })
}

/// How many conflicts are found on a walk of so many draws; none where an answer isn't that of all rows.
fn conflicts(alloc: Global, draws: u32) -> Result<Option<u64>, Fail> {
    let mut w = start(alloc, &DIFFERENCES)?;
    let mut seed: u64 = 1;
    let mut count: u64 = 0;
    for _ in 0..draws {
        seed = seed
            .wrapping_mul(6364136223846793005)
            .wrapping_add(1442695040888963407);
        match turn(alloc, &mut w, (seed >> 33) as usize)? {
            Some(found) => count = count.wrapping_add(u64::from(found)),
            None => return Ok(None),
        }
    }
    Ok(Some(count))
}

#[test]
fn answers_are_those_of_all_rows(rt: HostRuntime) -> Result<(), Fail> {
    assert!(rt; conflicts(rt.alloc(), 400)?.is_some_and(|count| count > 20));
    Ok(())
}
