//! The truth values of atoms and what stands for the values of incarnations and terms, by a complete leaf.
ghost use Rattle.std.specs.Prelude.{◌≡◌, ◌+◌, pos, true, false, if◌then◌else◌, replicate, length, map, slice_get, slice_set, unwrap_or, IfOk};
ghost use Rattle.bg_formula.specs.Atoms.{atom_of};
ghost use Rattle.bg_formula.specs.Formulas.{formula_of};
ghost use Rattle.bg_point.specs.Points.{target_of};
ghost use Rattle.bg_atoms.specs.Ranks.{one_for};
ghost use Rattle.bg_check.specs.Leaves.{marked_by, marked, noted_by, noted_in, noted, numbered, unnamed, unnamed_by, scalar_for, scalars_from};

use bg_cert::Decision;
use bg_formula::{Atom, Clauses};
use bg_linear::Sort;
use bg_point::Spot;
use bg_rows::Entry;
use bg_scalar::Scalar;
use std::alloc::{AllocError, Global};

/// The atom that a decision makes true is true.
fn mark(truths: &mut [bool], d: Decision)
    ensures { truths.new ≡ marked_by d truths.old }
{
    if let Decision::Atom(a, s) = d {
        if s && a < truths.len() {
            truths[a] = true;
        }
    }
}

/// The truth values that a path gives the first atoms, as many as are asked for.
pub fn leaf_truths(alloc: Global, count: usize, path: &[Decision]) -> Result<Vec<bool>, AllocError>
    ensures { IfOk result (λ made. made.items ≡ marked path.now (replicate count false)) }
{
    let mut truths = vec![in alloc; false; count]?;
    for d in path {
        mark(&mut truths, *d);
    }
    Ok(truths)
}

/// The variable of a spot has its number.
fn place(numbers: &mut [i128], spot: &Spot)
    ensures { numbers.new ≡ slice_set numbers.old spot.now.variable spot.now.value }
{
    let k = spot.variable as usize;
    if k < numbers.len() {
        numbers[k] = spot.value;
    }
}

/// The variables of spots have their numbers; of spots of one variable the first counts.
#[tactic(auto, using(crate::proofs::Points::next_spot))]
fn place_all(numbers: &mut [i128], spots: &[Spot])
    ensures { numbers.new ≡ numbered spots.now numbers.old }
{
    let mut left = spots;
    while let Some((spot, before)) = left.split_last() {
        place(numbers, spot);
        left = before;
    }
}

/// What has this number is named, if it is there.
fn note(named: &mut [bool], x: usize)
    ensures { named.new ≡ slice_set named.old x true }
{
    if x < named.len() {
        named[x] = true;
    }
}

/// The variables of entries are named.
fn note_all(named: &mut [bool], entries: &[Entry])
    ensures { named.new ≡ noted_by entries.now named.old }
{
    for e in entries {
        note(named, e.variable as usize);
    }
}

/// Those of an atom's row are, if it has one.
fn note_atom(named: &mut [bool], a: &Atom)
    ensures { named.new ≡ noted_in (atom_of a.now) named.old }
{
    if let Atom::Holds(l) = a {
        note_all(named, &l.row.entries);
    }
}

/// Which of the first incarnations and terms, as many as are asked for, rows of these atoms name.
fn named(alloc: Global, count: usize, atoms: &[Atom]) -> Result<Vec<bool>, AllocError>
    ensures { IfOk result (λ made. made.items ≡ noted (map atom_of atoms.now) (replicate count false)) }
{
    let mut named = vec![in alloc; false; count]?;
    for a in atoms {
        note_atom(&mut named, a);
    }
    Ok(named)
}

/// The target of what has this number; 0, where none is said.
pub fn target_at(targets: &[i128], j: usize) -> i128
    ensures { result ≡ target_of targets.now j }
{
    match targets.get(j) {
        None => 0,
        Some(z) => *z,
    }
}

/// The number without a point: the target of what no row names, 0 of all else.
fn unnamed_at(named: bool, targets: &[i128], j: usize) -> i128
    ensures { result ≡ (if named then pos 0 else target_of targets.now j) }
{
    if named { 0 } else { target_at(targets, j) }
}

/// Those of all that is marked as named, or isn't.
#[tactic(auto, using(crate::proofs::Points::next_unnamed, crate::proofs::Points::none_unnamed))]
fn unnamed(alloc: Global, named: &[bool], targets: &[i128]) -> Result<Vec<i128>, AllocError>
    ensures { IfOk result (λ made. made.items ≡ unnamed_by (target_of targets.now) 0 named.now) }
{
    let mut made = Vec::new(alloc);
    for (j, b) in named.iter().enumerate() {
        made.push(unnamed_at(*b, targets, j))?;
    }
    Ok(made)
}

/// The numbers of the first incarnations and terms, as many as are asked for: those of the point, and without one the targets of what no
/// row names, 0 of all else.
fn leaf_numbers(
    alloc: Global,
    count: usize,
    spots: &[Spot],
    f: &Clauses,
    targets: &[i128],
) -> Result<Vec<i128>, AllocError>
    ensures { IfOk result (λ made. made.items ≡ numbered spots.now (unnamed (target_of targets.now) (formula_of f.now).atoms 0 count)) }
{
    let named = named(alloc, count, &f.atoms)?;
    let mut numbers = unnamed(alloc, &named, targets)?;
    place_all(&mut numbers, spots);
    Ok(numbers)
}

fn number_at(numbers: &[i128], j: usize) -> i128
    ensures { result ≡ unwrap_or (slice_get numbers.now j) (pos 0) }
{
    match numbers.get(j) {
        None => 0,
        Some(z) => *z,
    }
}

fn truth_at(truths: &[bool], n: usize) -> bool
    ensures { result ≡ unwrap_or (slice_get truths.now n) false }
{
    match truths.get(n) {
        None => false,
        Some(b) => *b,
    }
}

/// What stands for the value of what has this sort.
fn scalar_for(sort: Sort, z: i128, b: bool) -> Scalar
    ensures { result ≡ scalar_for sort z b }
{
    match sort {
        Sort::Truth => Scalar::Truth(b),
        Sort::Number => Scalar::Number(z),
        Sort::Other => Scalar::Number(0),
    }
}

/// One more; more than a number holds are more than memory holds.
fn one_more(n: usize) -> Result<usize, AllocError>
    ensures { IfOk result (λ k. k ≡ n + 1) }
{
    match n.checked_add(1) {
        Some(k) => Ok(k),
        None => Err(AllocError),
    }
}

/// How many truth values there are behind what has this sort.
fn behind(n: usize, sort: Sort) -> Result<usize, AllocError>
    ensures { IfOk result (λ k. k ≡ n + one_for sort) }
{
    match sort {
        Sort::Truth => one_more(n),
        Sort::Number => Ok(n),
        Sort::Other => Ok(n),
    }
}

/// What stands for the values of incarnations and terms of these sorts, by truth values in their order and by the numbers of all.
#[tactic(auto, using(crate::proofs::Points::next_scalar, crate::proofs::Points::no_more))]
pub fn scalars_of(
    alloc: Global,
    sorts: &[Sort],
    truths: &[bool],
    numbers: &[i128],
) -> Result<Vec<Scalar>, AllocError>
    ensures { IfOk result (λ made. made.items ≡ scalars_from truths.now numbers.now 0 0 sorts.now) }
{
    let mut made = Vec::new(alloc);
    let mut n = 0;
    for (j, sort) in sorts.iter().enumerate() {
        made.push(scalar_for(*sort, number_at(numbers, j), truth_at(truths, n)))?;
        n = behind(n, *sort)?;
    }
    Ok(made)
}

/// The same at a leaf: truth values in their order are the first atoms', a number is that of the point, or, where no row names it, its
/// target.
pub fn leaf_scalars(
    alloc: Global,
    sorts: &[Sort],
    truths: &[bool],
    spots: &[Spot],
    f: &Clauses,
    targets: &[i128],
) -> Result<Vec<Scalar>, AllocError>
    ensures { IfOk result (λ made. made.items ≡ scalars_from truths.now (numbered spots.now (unnamed (target_of targets.now) (formula_of f.now).atoms 0 (length sorts.now))) 0 0 sorts.now) }
{
    let numbers = leaf_numbers(alloc, sorts.len(), spots, f, targets)?;
    scalars_of(alloc, sorts, truths, &numbers)
}
