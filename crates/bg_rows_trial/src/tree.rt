//! The search on formulas made by hand: certificates, which the checker accepts, leaves, and budgets that are used up.
ghost use Rattle.std.specs.Prelude.{◌<◌};

use crate::made::{Given, Signed, clause, formula};
use crate::whole::is_whole;
use bg_cert::{Cert, accepts, used};
use bg_formula::Clauses;
use bg_tree::{Beyond, Budget, Outcome, Why, search};
use std::alloc::{AllocError, Global};
use std::test::Fail;

const MOST: i128 = i128::MAX;

/// Rows, so many truth variables behind them, clauses, the budgets of nodes and rows, and what is found.
type Case = (
    &'static [Given],
    u32,
    &'static [Signed],
    u32,
    u32,
    (char, i128),
);

fn found(alloc: Global, f: &Clauses, set: &[bool], budget: Budget) -> Result<Outcome, Fail> {
    if is_whole(f) {
        Ok(search(alloc, f, set, &[], budget)?)
    } else {
        Err("an atom isn't there".into())
    }
}

/// What is found: 'c' with the number of nodes, 'l' with the first value of the point, 'n' with the
/// number of parts, 'r' with that of rows, 'e' and 'v' where an elimination or a value leaves 128 bits; 'x' for a certificate that
/// isn't accepted.
fn told(alloc: Global, f: &Clauses, nodes: u32, rows: u32) -> Result<(char, i128), Fail> {
    match found(alloc, f, &[], Budget { nodes, rows })? {
        Outcome::Closed(cert) => {
            let is_right = accepts(alloc, f, &[], &cert)?;
            Ok((if is_right { 'c' } else { 'x' }, cert.nodes.len() as i128))
        }
        Outcome::Leaf(leaf) => Ok(('l', leaf.spots.first().map_or(0, |spot| spot.value))),
        Outcome::Unknown(Why::Nodes(parts, _)) => Ok(('n', parts.len() as i128)),
        Outcome::Unknown(Why::Rows(_, order)) => Ok(('r', order.rows.len() as i128)),
        Outcome::Unknown(Why::Range(_, Beyond::Elimination(_, _))) => Ok(('e', 0)),
        Outcome::Unknown(Why::Range(_, Beyond::Value(_, _, _))) => Ok(('v', 0)),
    }
}

/// One clause leaves two variables free.
const EITHER: &[Signed] = &[&[(0, true), (1, true)]];

/// Four clauses over two variables take three nodes that count: the root, and on both sides a split whose children are both closed.
const FOUR: &[Signed] = &[
    &[(0, true), (1, true)],
    &[(0, true), (1, false)],
    &[(0, false), (1, true)],
    &[(0, false), (1, false)],
];

const FIRST: &[Signed] = &[&[(0, true)]];

const FIRST_NOT: &[Signed] = &[&[(0, false)]];

const BOTH: &[Signed] = &[&[(0, true)], &[(1, true)]];

const NOT_BOTH: &[Signed] = &[&[(0, true)], &[(1, false)]];

const ALL: &[Signed] = &[&[(0, true)], &[(1, true)], &[(2, true)], &[(3, true)]];

/// Bounds that clash.
const CLASH: &[Given] = &[(&[(0, 1)], 1), (&[(0, -1)], -2)];

/// The same, in front of rows that aren't decided then.
const EARLY: &[Given] = &[
    (&[(0, 1)], 1),
    (&[(0, -1)], -2),
    (&[(1, 1)], 0),
    (&[(2, 1)], 0),
];

/// 2x = 2y + 1, where the second is denied.
const PARITY: &[Given] = &[(&[(0, 2), (1, -2)], 1), (&[(0, 2), (1, -2)], 0)];

/// 3y = x + 1 where x is 3 or 4 takes no bound, since x goes first and nothing whole is lost by it.
const EXACT: &[Given] = &[
    (&[(0, -1), (1, 3)], 1),
    (&[(0, 1), (1, -3)], -1),
    (&[(0, -1)], -3),
    (&[(0, 1)], 4),
];

/// 3x = 5y + 1 where y is 0 is closed by no bound but one of x.
const LOST: &[Given] = &[
    (&[(0, 3), (1, -5)], 1),
    (&[(0, -3), (1, 5)], -1),
    (&[(1, 1)], 0),
    (&[(1, -1)], 0),
];

/// The nearest point to 0 from below, where the second row is denied.
const BELOW: &[Given] = &[(&[(0, 2)], -5), (&[(0, 1)], -9)];

/// Rows whose sum leaves the range, and such whose point does.
const SUM: &[Given] = &[
    (&[(0, 1), (1, -1)], MOST),
    (&[(1, 1), (2, -1)], 1),
    (&[(0, -1)], 0),
    (&[(2, 1)], 0),
];

const VALUE: &[Given] = &[(&[(0, -1)], -MOST), (&[(0, 1), (1, -1)], -1)];

const CASES: [Case; 24] = [
    (&[], 2, EITHER, 2, 1000, ('l', 0)),
    (&[], 2, EITHER, 1, 1000, ('n', 3)),
    (&[], 2, FOUR, 3, 1000, ('c', 7)),
    (&[], 2, FOUR, 2, 1000, ('n', 5)),
    (&[], 2, FOUR, 1, 1000, ('n', 3)),
    (&[], 2, FOUR, 0, 1000, ('n', 1)),
    (CLASH, 0, BOTH, 9, 1000, ('c', 5)),
    (CLASH, 9, BOTH, 2, 1000, ('c', 5)),
    (EARLY, 0, ALL, 2, 1000, ('c', 5)),
    (PARITY, 0, NOT_BOTH, 9, 1000, ('c', 5)),
    (PARITY, 0, NOT_BOTH, 9, 1, ('r', 1)),
    (PARITY, 0, NOT_BOTH, 9, 2, ('r', 2)),
    (EXACT, 0, ALL, 4, 1000, ('c', 9)),
    (LOST, 0, ALL, 1, 1000, ('c', 11)),
    (LOST, 0, ALL, 0, 1000, ('n', 1)),
    (&[(&[(0, 1)], 5)], 1, FIRST, 9, 1000, ('l', 0)),
    (&[(&[(0, 1)], 1)], 1, FIRST_NOT, 9, 1000, ('l', 2)),
    (
        &[(&[(0, 1)], 5), (&[(0, -1)], -2)],
        1,
        BOTH,
        9,
        1000,
        ('l', 2),
    ),
    (BELOW, 0, NOT_BOTH, 9, 1000, ('l', -3)),
    (BELOW, 0, NOT_BOTH, 0, 1000, ('n', 1)),
    (&[], 3, &[], 9, 1, ('l', 0)),
    (SUM, 0, ALL, 9, 1000, ('e', 0)),
    (VALUE, 0, BOTH, 9, 1000, ('v', 0)),
    (&[], 1, &[&[(0, true)], &[(0, false)]], 1, 1000, ('c', 3)),
];

fn tells(alloc: Global, case: &Case) -> Result<bool, Fail> {
    let (rows, truths, clauses, nodes, most, wanted) = *case;
    let f = formula(alloc, rows, truths, clauses)?;
    Ok(told(alloc, &f, nodes, most)? == wanted)
}

#[test]
fn each_formula_takes_its_nodes_and_rows(rt: HostRuntime) -> Result<(), Fail> {
    for case in &CASES {
        assert!(rt; tells(rt.alloc(), case)?);
    }
    Ok(())
}

/// Clauses that the second candidate makes false; and others that it doesn't.
const GUARDED: &[Signed] = &[&[(0, true)], &[(0, false), (1, false)]];

/// Clauses over two truth variables, and a candidate without an atom and one whose atom is the second.
fn guarded(alloc: Global, clauses: &[Signed]) -> Result<Clauses, Fail> {
    let mut f = formula(alloc, &[], 2, clauses)?;
    f.candidates = vec![in alloc; None, Some(1)]?;
    Ok(f)
}

fn certificate(alloc: Global) -> Result<Cert, Fail> {
    let budget = Budget {
        nodes: 9,
        rows: 1000,
    };
    match found(alloc, &guarded(alloc, GUARDED)?, &[true, true], budget)? {
        Outcome::Closed(cert) => Ok(cert),
        _ => Err("no certificate".into()),
    }
}

/// Clauses, the candidates that are there, and whether the certificate is accepted for them.
const SETS: [(&[Signed], [bool; 2], bool); 3] = [
    (GUARDED, [true, true], true),
    (GUARDED, [true, false], false),
    (EITHER, [true, true], false),
];

/// A certificate that rests on a candidate is accepted where that is there, for the formula's own clauses, and names it.
#[test]
fn a_certificate_names_the_candidates_that_it_uses(rt: HostRuntime) -> Result<(), Fail> {
    let alloc = rt.alloc();
    let cert = certificate(alloc)?;
    for (clauses, set, wanted) in &SETS {
        assert!(rt; accepts(alloc, &guarded(alloc, clauses)?, set, &cert)? == *wanted);
    }
    assert!(rt; used(alloc, &cert.nodes, 2)?.as_slice() == &[false, true][..]);
    Ok(())
}

/// More clauses, behind those of a formula.
fn push_all(alloc: Global, f: &mut Clauses, clauses: &[&[(u32, bool)]]) -> Result<(), AllocError> {
    for literals in clauses {
        f.clauses.push(clause(alloc, literals)?)?;
    }
    Ok(())
}

/// A chain of so many implications from a true variable to a false one, written from its end on.
fn chain(alloc: Global, links: u32) -> Result<Clauses, Fail> {
    let mut f = formula(alloc, &[], links.saturating_add(1), &[&[(0, true)]])?;
    push_all(alloc, &mut f, &[&[(links, false)]])?;
    for k in 0..links {
        let last = links - k;
        push_all(alloc, &mut f, &[&[(last - 1, false), (last, true)]])?;
    }
    Ok(f)
}

/// The clauses of a way from a block to the next, which both keep a variable.
fn push_way(alloc: Global, f: &mut Clauses, way: u32, k: u32) -> Result<(), AllocError>
    requires { k < 100 }
{
    let clauses: [&[(u32, bool)]; 3] = [
        &[(way, false), (102 + k, true)],
        &[(way, false), (k, false), (k + 1, true)],
        &[(way, false), (k, true), (k + 1, false)],
    ];
    push_all(alloc, f, &clauses)
}

/// Two ways lead from each of a hundred blocks to the next one.
fn ways(alloc: Global) -> Result<Clauses, Fail> {
    let ends: [Signed; 3] = [&[(0, true)], &[(101, true)], &[(201, false), (100, false)]];
    let mut f = formula(alloc, &[], 402, &ends)?;
    for k in 0..100_u32 {
        let (left, right) = (202 + k, 302 + k);
        push_all(
            alloc,
            &mut f,
            &[&[(101 + k, false), (left, true), (right, true)]],
        )?;
        push_way(alloc, &mut f, left, k)?;
        push_way(alloc, &mut f, right, k)?;
    }
    Ok(f)
}

/// A chain takes one split a variable. Where ways meet again, a split of the block or of the variable behind them serves both,
/// so that the certificate grows with the number of blocks and not with that of ways.
#[test]
fn certificates_grow_with_chains_and_blocks(rt: HostRuntime) -> Result<(), Fail> {
    let alloc = rt.alloc();
    assert!(rt; told(alloc, &chain(alloc, 20_000)?, 20_001, 1000)? == ('c', 40_003));
    assert!(rt; told(alloc, &ways(alloc)?, 2_000, 1000)?.0 == 'c');
    Ok(())
}
