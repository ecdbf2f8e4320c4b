//! The rows of some of a path's decisions.
ghost use Rattle.std.specs.Prelude.{◌≡◌, ◌+◌, ◌<◌, ◌^◌, false, [], ◌∷◌, ◌++◌, List, Some, map, length, is_some, IfOk, OnOk};
ghost use Rattle.bg_rows.specs.Rows.{RowOf, row_of};
ghost use Rattle.bg_formula.specs.Atoms.{atom_of};
ghost use Rattle.bg_cert.specs.Paths.{row_of_decision, in_front, rows_on};
ghost use Rattle.bg_conflict.specs.Picked.{ArePicked};

use bg_cert::{Decision, row_of_decision};
use bg_formula::Atom;
use bg_rows::Row;
use std::alloc::{AllocError, Global};

/// Rows with their numbers among those of a path, the numbers rising.
#[derive(Drop)]
pub struct Picked {
    pub numbers: Vec<usize>,
    pub rows: Vec<Row>,
}

/// Whether a decision has a row.
#[tactic(auto, using(bg_cert::proofs::Places::at_map_there, bg_cert::proofs::Places::at_map_missing))]
fn has_row(atoms: &[Atom], d: &Decision) -> bool
    ensures { result ≡ is_some (row_of_decision (map atom_of atoms.now) d.now) }
{
    match *d {
        Decision::Atom(a, _) => {
            if a < atoms.len() {
                match &atoms[a] {
                    Atom::Truth(_) => false,
                    Atom::Holds(_) => true,
                }
            } else {
                false
            }
        }
        Decision::AtMost(_, _, _) => true,
    }
}

/// Passes a decision that stands behind `number` rows: where it is wanted, its row goes behind those
/// picked. Answers how many rows there are with its own.
fn pass(
    alloc: Global,
    picked: &mut Picked,
    atoms: &[Atom],
    d: &Decision,
    number: usize,
    wanted: bool,
) -> Result<usize, AllocError>
    requires { number + 1 < 2 ^ 64 }
    ensures number { IfOk result (λ n. n ≡ number + length (in_front (row_of_decision (map atom_of atoms.now) d.now) [])) }
    ensures picked { OnOk result ((given : List RowOf) → length given ≡ number → ArePicked given picked.old.numbers.items (map row_of picked.old.rows.items) → ArePicked (given ++ in_front (row_of_decision (map atom_of atoms.now) d.now) []) picked.new.numbers.items (map row_of picked.new.rows.items)) }
{
    if wanted {
        match row_of_decision(alloc, atoms, d)? {
            Some(row) => {
                picked.rows.push(row)?;
                picked.numbers.push(number)?;
                Ok(number + 1)
            }
            None => Ok(number),
        }
    } else if has_row(atoms, d) {
        Ok(number + 1)
    } else {
        Ok(number)
    }
}

/// Whether the number at a place is this one.
fn is_at(wanted: &[usize], place: usize, number: usize) -> bool {
    match wanted.get(place) {
        Some(n) => *n == number,
        None => false,
    }
}

/// The rows of the decisions with these numbers, which rise, each with its number among the rows of
/// all decisions. A decision that has no row is passed over. Only want of memory is an error.
pub fn pick(
    alloc: Global,
    atoms: &[Atom],
    decisions: &[Decision],
    wanted: &[usize],
) -> Result<Picked, AllocError>
    ensures { IfOk result (λ p. ArePicked (rows_on (map atom_of atoms.now) decisions.now) p.numbers.items (map row_of p.rows.items)) }
{
    let mut picked = Picked {
        numbers: Vec::new(alloc),
        rows: Vec::new(alloc),
    };
    let mut number = 0;
    let mut place = 0;
    for i in 0..decisions.len() {
        let wants = is_at(wanted, place, i);
        number = pass(alloc, &mut picked, atoms, &decisions[i], number, wants)?;
        if wants {
            place += 1;
        }
    }
    Ok(picked)
}
