//! What is proposed for formulas made by hand: certificates, which the checker accepts, kept or not, and values, which meet the clauses.

use crate::made::{Given, Signed, formula};
use crate::whole::is_whole;
use bg_cert::accepts;
use bg_formula::{Clauses, Literal};
use bg_learn::{Limits, Proposal, propose};
use bg_point::Spot;
use bg_search::{Aim, Searched, search};
use bg_tree::{Budget, Outcome, Values, follow};
use std::alloc::{AllocError, Global};
use std::test::Fail;

/// Whether some literal of the clause has its value.
fn meets(values: &[bool], clause: &[Literal]) -> bool {
    for l in clause {
        if values.get(l.atom as usize).copied() == Some(l.sign) {
            return true;
        }
    }
    false
}

fn meets_all(values: &[bool], clauses: &[Vec<Literal>]) -> bool {
    for c in clauses {
        if !meets(values, c) {
            return false;
        }
    }
    true
}

/// What is proposed: 'p' for a certificate that is accepted, 's' for one that isn't kept, 'v' for values that meet the clauses, 'n' for
/// nothing; 'x' for a certificate that isn't accepted, 'w' for values that don't meet a clause.
fn proposal(
    alloc: Global,
    f: &Clauses,
    set: &[bool],
    budget: usize,
    keeps: bool,
) -> Result<char, AllocError> {
    let aim = bg_learn::Aim {
        targets: &[],
        limits: Limits {
            nodes: budget,
            rows: 1000,
        },
        keeps,
    };
    match propose(alloc, f, set, aim)? {
        Proposal::Proof(cert) => Ok(if accepts(alloc, f, set, &cert)? {
            'p'
        } else {
            'x'
        }),
        Proposal::Shown => Ok('s'),
        Proposal::Values(values) => Ok(if meets_all(&values, &f.clauses) {
            'v'
        } else {
            'w'
        }),
        Proposal::Nothing => Ok('n'),
    }
}

/// What is proposed where certificates are kept, and where they aren't.
fn proposed(
    alloc: Global,
    f: &Clauses,
    set: &[bool],
    budget: usize,
) -> Result<(char, char), AllocError> {
    let kept = proposal(alloc, f, set, budget, true)?;
    let shown = proposal(alloc, f, set, budget, false)?;
    Ok((kept, shown))
}

/// What is proposed for rows, so many truth variables behind them, and clauses.
fn told(
    alloc: Global,
    rows: &[Given],
    truths: u32,
    clauses: &[Signed],
) -> Result<(char, char), Fail> {
    let f = formula(alloc, rows, truths, clauses)?;
    Ok(proposed(alloc, &f, &[], 1000)?)
}

/// One of two variables.
const EITHER: &[Signed] = &[&[(0, true), (1, true)]];

/// All four clauses over two variables.
const FOUR: &[Signed] = &[
    &[(0, true), (1, true)],
    &[(0, true), (1, false)],
    &[(0, false), (1, true)],
    &[(0, false), (1, false)],
];

/// Three pigeons in two holes: variable 2 p + h says that pigeon p is in hole h.
const PIGEONS: &[Signed] = &[
    &[(0, true), (1, true)],
    &[(2, true), (3, true)],
    &[(4, true), (5, true)],
    &[(0, false), (2, false)],
    &[(0, false), (4, false)],
    &[(2, false), (4, false)],
    &[(1, false), (3, false)],
    &[(1, false), (5, false)],
    &[(3, false), (5, false)],
];

/// x0 <= x1, x1 <= x0, x1 <= 3, x0 >= 5.
const EQUAL: &[Given] = &[
    (&[(0, 1), (1, -1)], 0),
    (&[(0, -1), (1, 1)], 0),
    (&[(1, 1)], 3),
    (&[(0, -1)], -5),
];

/// 2 x0 - 3 x1 = 1 in two rows, x0 >= 0, x0 <= 3.
const WHOLE: &[Given] = &[
    (&[(0, 2), (1, -3)], 1),
    (&[(0, -2), (1, 3)], -1),
    (&[(0, -1)], 0),
    (&[(0, 1)], 3),
];

/// Each of four atoms.
const EACH: &[Signed] = &[&[(0, true)], &[(1, true)], &[(2, true)], &[(3, true)]];

const CERTIFICATE: (char, char) = ('p', 's');

const VALUES: (char, char) = ('v', 'v');

const NOTHING: (char, char) = ('n', 'n');

#[test]
fn certificates_are_accepted_and_values_meet_the_clauses(rt: HostRuntime) -> Result<(), Fail> {
    let alloc = rt.alloc();
    assert_eq!(rt; told(alloc, &[], 2, EITHER)?, VALUES);
    assert_eq!(rt; told(alloc, &[], 2, FOUR)?, CERTIFICATE);
    assert_eq!(rt; told(alloc, &[], 6, PIGEONS)?, CERTIFICATE);
    assert_eq!(rt; told(alloc, EQUAL, 0, EACH)?, CERTIFICATE);
    assert_eq!(rt; told(alloc, WHOLE, 0, EACH)?, VALUES);
    Ok(())
}

#[test]
fn members_are_units_and_a_budget_ends_the_search(rt: HostRuntime) -> Result<(), Fail> {
    let alloc = rt.alloc();
    let mut f = formula(alloc, &[], 2, &[&[(0, false), (1, true)], &[(1, false)]])?;
    f.candidates.push(Some(0))?;
    assert_eq!(rt; proposed(alloc, &f, &[true], 1000)?, CERTIFICATE);
    assert_eq!(rt; proposed(alloc, &f, &[false], 1000)?, VALUES);
    let four = formula(alloc, &[], 2, FOUR)?;
    assert_eq!(rt; proposed(alloc, &four, &[], 0)?, NOTHING);
    Ok(())
}

/// Where a walk along these values of two variables ends, one of which is true: 'l' at a complete leaf, 'n' at none, 'x' else.
fn walked(alloc: Global, atoms: &[bool]) -> Result<char, Fail> {
    let f = formula(alloc, &[], 2, EITHER)?;
    let budget = Budget { nodes: 9, rows: 9 };
    let values = Values { atoms, terms: &[] };
    if !is_whole(&f) {
        return Ok('x');
    }
    match follow(alloc, &f, &[], &[], budget, values)? {
        Some(Outcome::Leaf(_)) => Ok('l'),
        Some(_) => Ok('x'),
        None => Ok('n'),
    }
}

/// 'c' for a certificate, 's' for one that isn't kept, 'l' for a complete leaf, 'u' for unknown.
fn letter(found: Searched) -> char {
    match found {
        Searched::Closed(Some(_)) => 'c',
        Searched::Closed(None) => 's',
        Searched::Leaf(_) => 'l',
        Searched::Unknown(_) => 'u',
    }
}

/// Within so many nodes, near no targets.
fn untargeted(nodes: u32, keeps: bool) -> Aim<'static> {
    Aim {
        targets: &[],
        budget: Budget { nodes, rows: 9 },
        keeps,
    }
}

/// What is found for rows, so many truth variables behind them, and clauses, within so many nodes; where certificates are kept, and where
/// they aren't.
fn found(
    alloc: Global,
    rows: &[Given],
    truths: u32,
    clauses: &[Signed],
    nodes: u32,
) -> Result<(char, char), Fail> {
    let f = formula(alloc, rows, truths, clauses)?;
    if !is_whole(&f) {
        return Ok(('x', 'x'));
    }
    let kept = search(alloc, &f, &[], untargeted(nodes, true))?;
    let shown = search(alloc, &f, &[], untargeted(nodes, false))?;
    Ok((letter(kept), letter(shown)))
}

#[test]
fn what_is_proposed_counts_where_it_holds(rt: HostRuntime) -> Result<(), Fail> {
    let alloc = rt.alloc();
    assert_eq!(rt; walked(alloc, &[false, true])?, 'l');
    assert_eq!(rt; walked(alloc, &[false, false])?, 'n');
    assert_eq!(rt; found(alloc, &[], 2, EITHER, 9)?, ('l', 'l'));
    assert_eq!(rt; found(alloc, &[], 2, FOUR, 9)?, ('c', 's'));
    assert_eq!(rt; found(alloc, &[], 2, FOUR, 1)?, ('u', 'u'));
    assert_eq!(rt; found(alloc, WHOLE, 0, EACH, 9)?, ('l', 'l'));
    Ok(())
}

/// x0 <= 3, and x1 <= x0 + 10.
const BELOW: &[Given] = &[(&[(0, 1)], 3), (&[(0, -1), (1, 1)], 10)];

fn value_of(spots: &[Spot], x: u32) -> i128 {
    for s in spots {
        if s.variable == x {
            return s.value;
        }
    }
    0
}

/// The values of two terms at the leaf that is found where both rows hold, near these targets.
fn placed(alloc: Global, targets: &[i128]) -> Result<(i128, i128), Fail> {
    let f = formula(alloc, BELOW, 0, &[&[(0, true)], &[(1, true)]])?;
    let aim = Aim {
        targets,
        budget: Budget { nodes: 9, rows: 9 },
        keeps: true,
    };
    if !is_whole(&f) {
        return Err("an atom isn't there".into());
    }
    match search(alloc, &f, &[], aim)? {
        Searched::Leaf(leaf) => Ok((value_of(&leaf.spots, 0), value_of(&leaf.spots, 1))),
        _ => Err("no leaf".into()),
    }
}

#[test]
fn points_are_near_their_targets(rt: HostRuntime) -> Result<(), Fail> {
    let alloc = rt.alloc();
    assert_eq!(rt; placed(alloc, &[])?, (0, 0));
    assert_eq!(rt; placed(alloc, &[1, 2])?, (1, 2));
    assert_eq!(rt; placed(alloc, &[5, 7])?, (3, 7));
    assert_eq!(rt; placed(alloc, &[-9])?, (-9, 0));
    Ok(())
}
