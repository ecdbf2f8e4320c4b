//! Atoms of what a few bodies assume.
use crate::text::{passive_of, program};
use bg_atoms::atoms;
use bg_linear::Sort;
use std::alloc::Global;
use std::test::Fail;

const SORTS: [Sort; 3] = [Sort::Number, Sort::Number, Sort::Truth];

/// What is assumed of two numbers and a truth value, with so many times what follows, and how many rows there are, where there are
/// atoms: equal rows and denials share one, an equality has two, a relation of which an operation leaves the range has none, and a
/// long chain of one relation has one.
type Case = (&'static [u8], &'static [u8], u32, Option<usize>);

const CASES: [Case; 5] = [
    (
        b"assume x < y; assume y <= x; assume y > x",
        b"",
        0,
        Some(1),
    ),
    (
        b"assume x == y; assume x != y; assume 1 < 1",
        b"",
        0,
        Some(2),
    ),
    (
        b"assume x <= -170141183460469231731687303715884105727 - 1 && p",
        b"",
        0,
        Some(0),
    ),
    (b"assume x < y", b" ==> x < y", 4_000, Some(1)),
    (b"assume x < p", b"", 0, None),
];

const FRONT: &[u8] = b"procedure P(x: int, y: int, p: bool) { ";

fn rows_of(
    alloc: Global,
    text: &'static [u8],
    more: &'static [u8],
    many: u32,
) -> Result<Option<usize>, Fail> {
    let p = program(alloc, &[(FRONT, 1), (text, 1), (more, many), (b"; }", 1)])?;
    let passive = passive_of(alloc, &p)?;
    Ok(atoms(alloc, &SORTS, 0, &passive.blocks)?.map(|a| a.rows.len()))
}

#[test]
fn relations_are_atoms_of_rows(rt: HostRuntime) -> Result<(), Fail> {
    for (text, more, many, wanted) in &CASES {
        assert!(rt; rows_of(rt.alloc(), *text, *more, *many)? == *wanted);
    }
    Ok(())
}
