//! Passive blocks made flat: how many terms there are, and the rows of what is flat.
use crate::text::{passive_of, program};
use bg_atoms::atoms;
use bg_flatten::flattened;
use bg_kinds::{Base, IndexType, Keys, ValueType};
use bg_linear::Sort;
use bg_term_table::Around;
use std::alloc::Global;
use std::test::Fail;

/// What is assumed of two numbers and a truth value; how many terms there are, and how many rows: an application to variables that is
/// written twice is one term, so an equality of both has no row; one to a sum is a term each time; and one inside another is a term too.
/// The same goes for selects and updates.
type Case = (&'static [u8], usize, usize);

const CASES: [Case; 10] = [
    (b"assume f(x) == f(x)", 1, 0),
    (b"assume f(x) < f(y); assume f(y) >= 3", 2, 2),
    (b"assume f(f(x)) == (f((x)))", 2, 2),
    (b"assume f(x + 1) <= f(x + 1) - 1", 2, 1),
    (b"assume g(x, p) < g(x, !p) ==> p", 2, 1),
    (b"assume x < y", 0, 1),
    (b"assume m[x] == m[x] && m[x] < m[y]", 2, 1),
    (b"assume m[x + 1] == m[x + 1]", 2, 2),
    (b"assume m[x := y] == m", 1, 2),
    (b"assume m[x := m[x]][x] == m[x]", 3, 2),
];

const FRONT: &[u8] = b"function f(int) returns (int); function g(int, bool) returns (int);
procedure P(x: int, y: int, p: bool, m: [int]int) { ";

/// A type that is no map.
fn based(alloc: Global, base: Base) -> ValueType {
    ValueType {
        maps: Vec::new(alloc),
        base,
    }
}

/// The types of the incarnations.
fn kinds(alloc: Global) -> Result<Vec<ValueType>, Fail> {
    let mut made = Vec::new(alloc);
    made.push(based(alloc, Base::Int))?;
    made.push(based(alloc, Base::Int))?;
    made.push(based(alloc, Base::Bool))?;
    let mut keys = Vec::new(alloc);
    keys.push(IndexType::Int)?;
    let mut maps = Vec::new(alloc);
    maps.push(Keys { keys })?;
    made.push(ValueType {
        maps,
        base: Base::Int,
    })?;
    Ok(made)
}

/// The types of what both functions give.
fn results(alloc: Global) -> Result<Vec<ValueType>, Fail> {
    let mut made = Vec::new(alloc);
    made.push(based(alloc, Base::Int))?;
    made.push(based(alloc, Base::Int))?;
    Ok(made)
}

/// The sorts of the incarnations, with those of so many terms.
fn sorts(alloc: Global, terms: usize) -> Result<Vec<Sort>, Fail> {
    let mut made = Vec::new(alloc);
    made.push(Sort::Number)?;
    made.push(Sort::Number)?;
    made.push(Sort::Truth)?;
    made.push(Sort::Number)?;
    for _ in 0..terms {
        made.push(Sort::Number)?;
    }
    Ok(made)
}

/// How many terms there are, and how many rows, where there are atoms.
fn counted(alloc: Global, text: &'static [u8]) -> Result<(usize, Option<usize>), Fail> {
    let p = program(alloc, &[(FRONT, 1), (text, 1), (b"; }", 1)])?;
    let passive = passive_of(alloc, &p)?;
    let kinds = kinds(alloc)?;
    let results = results(alloc)?;
    let around = Around {
        incarnations: &kinds,
        results: &results,
    };
    let flat = flattened(alloc, around, &passive.blocks)?;
    let terms = flat.terms.len();
    let sorts = sorts(alloc, terms)?;
    let rows = atoms(alloc, &sorts, 0, &flat.blocks)?.map(|a| a.rows.len());
    Ok((terms, rows))
}

#[test]
fn applications_selects_and_updates_are_terms(rt: HostRuntime) -> Result<(), Fail> {
    for (text, terms, rows) in &CASES {
        assert!(rt; counted(rt.alloc(), text)? == (*terms, Some(*rows)));
    }
    Ok(())
}
