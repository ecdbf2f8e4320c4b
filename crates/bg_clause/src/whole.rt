//! The clauses of the blocks of an implementation for one target.
ghost use Rattle.std.specs.Prelude.{◌≡◌, ◌+◌, ◌-◌, ◌≤◌, ◌++◌, length, map, IfOk, OnOk};
ghost use Rattle.bg_places.specs.Views.{spot_of};
ghost use Rattle.bg_sense.specs.Variables.{count_from};
ghost use Rattle.bg_rows.specs.Rows.{Told, row_of};
ghost use Rattle.bg_formula.specs.Atoms.{atom_of, view_linear, IsTruth};
ghost use Rattle.bg_formula.specs.Formulas.{formula_of};
ghost use Rattle.bg_formed.specs.Used.{refused};
ghost use Rattle.bg_formed.specs.Views.{form_block_of};
ghost use Rattle.bg_slice.specs.Slices.{sliced};
ghost use Rattle.bg_slice.specs.Marks.{marked_rows};
ghost use Rattle.bg_clause.specs.Whole.{formula, clauses_of};

use crate::rows::add_rows;
use crate::table::{Tabled, table};
use crate::tell::{Entry, Telling, tell_entry};
use bg_base::OutOfRange;
use bg_formed::FormBlock;
use bg_formula::{Atom, Clauses, Linear};
use bg_places::Spot;
use bg_rows::Refused;
use bg_slice::laws::slices_use_alike;
use std::alloc::{AllocError, Global};

/// Truth variables as atoms of their numbers, from one number on, before another.
#[tactic(auto, using(crate::proofs::Counted::count_rules))]
fn add_truths(atoms: &mut Vec<Atom>, first: u32, end: u32) -> Result<(), AllocError>
    requires { first ≤ end }
    ensures { OnOk result (map atom_of atoms.new.items ≡ map atom_of atoms.old.items ++ map IsTruth (count_from first (end - first))) }
{
    for x in first..end {
        atoms.push(Atom::Truth(x))?;
    }
    Ok(())
}

/// The sum; more than 2^32 - 1 counts as want of memory.
fn sum(a: u32, b: u32) -> Result<u32, AllocError>
    ensures { IfOk result (λ c. c ≡ a + b) }
{
    match a.checked_add(b) {
        Some(c) => Ok(c),
        None => Err(AllocError),
    }
}

/// How many rows there are; more than 2^32 - 1 count as want of memory.
fn count(rows: &[Linear]) -> Result<u32, AllocError>
    ensures { IfOk result (λ n. n ≡ length (map view_linear rows.now)) }
{
    match u32::try_from(rows.len()) {
        Ok(n) => Ok(n),
        Err(_) => Err(AllocError),
    }
}

/// The atoms: truth variables, rows, and those behind them.
fn all_atoms(
    alloc: Global,
    names: &Names<'_>,
    base: u32,
    next: u32,
) -> Result<Vec<Atom>, AllocError>
    requires { base ≤ next }
    ensures { IfOk result (λ made. map atom_of made.items ≡ map IsTruth (count_from 0 names.now.first) ++ (marked_rows names.now.kept.now (map view_linear names.now.rows.now) ++ map IsTruth (count_from base (next - base)))) }
{
    let mut atoms = Vec::with_capacity(alloc, next as usize)?;
    add_truths(&mut atoms, 0, names.first)?;
    add_rows(alloc, &mut atoms, names.kept, names.rows)?;
    add_truths(&mut atoms, base, next)?;
    Ok(atoms)
}

/// A formula, and the first operation that leaves 128 bits in what counts for its target.
#[derive(Drop)]
struct Made {
    clauses: Clauses,
    refusal: Option<OutOfRange>,
}

/// The formula. 2^32 atoms count as want of memory.
fn formula(
    alloc: Global,
    names: &Names<'_>,
    target: Spot,
    blocks: &[FormBlock],
) -> Result<Made, AllocError>
    ensures formula { IfOk result (λ made. formula_of made.clauses ≡ formula names.now.first names.now.named.now names.now.terms (marked_rows names.now.kept.now (map view_linear names.now.rows.now)) (spot_of target) (sliced (spot_of target) (map form_block_of blocks.now))) }
    ensures refusal { IfOk result (λ made. made.refusal ≡ refused (spot_of target) (map form_block_of blocks.now)) }
{
    let base = sum(names.first, count(names.rows)?)?;
    let Tabled { units, next: free } = table(alloc, base, names.named)?;
    let Entry { told, on } = tell_entry(alloc, &units, target, free, blocks)?;
    let Telling {
        later: _,
        clauses,
        next,
    } = told;
    let atoms = all_atoms(alloc, names, base, next)?;
    let clauses = Clauses {
        terms: names.terms,
        atoms,
        clauses,
        candidates: units,
    };
    Ok(Made {
        clauses,
        refusal: on.refusal,
    })
}

/// What the atoms of forms are: truth variables below `first`, and behind them the rows, which name terms below `terms`; a row that isn't
/// kept is left out, and in its place stands 0 <= 0. The candidates that are named, a truth value for each of the program's, get the
/// atoms behind these, in order.
#[derive(Clone, Copy)]
pub struct Names<'a> {
    pub first: u32,
    pub named: &'a [bool],
    pub terms: u32,
    pub kept: &'a [bool],
    pub rows: &'a [Linear],
}

/// The clauses that say that the first block is not well for the target, where only what counts for it says something and a candidate
/// that isn't named isn't there. Atoms behind those of candidates are names of parts of forms. No form of the blocks is copied.
///
/// # Errors
/// `Range` with the first operation that leaves 128 bits in a form of a command from which the target's check is reached; and want
/// of memory, as which 2^32 atoms count.
pub fn clauses(
    alloc: Global,
    names: &Names<'_>,
    target: Spot,
    blocks: &[FormBlock],
) -> Result<Clauses, Refused>
    ensures { Told formula_of result (clauses_of names.now.first names.now.named.now names.now.terms (marked_rows names.now.kept.now (map view_linear names.now.rows.now)) (spot_of target) (sliced (spot_of target) (map form_block_of blocks.now))) }
{
    slices_use_alike();
    let Made { clauses, refusal } = formula(alloc, names, target, blocks)?;
    match refusal {
        Some(e) => Err(Refused::Range(e)),
        None => Ok(clauses),
    }
}
