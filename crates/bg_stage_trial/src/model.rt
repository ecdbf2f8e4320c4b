//! Counterexamples from truth values of atoms.
use crate::text::{frame, program};
use crate::values::{Literal, Taken, is_taken, values};
use bg_ast::resolved::Resolved;
use bg_atoms::atoms;
use bg_blocks::{blocks, callees_of};
use bg_incarnate::passive;
use bg_kinds::{Base, ValueType};
use bg_linear::Sort;
use bg_model::{Counterexample, Routine, Valuation, counterexample};
use bg_places::Spot;
use std::alloc::{AllocError, Global};
use std::test::Fail;

const TEXT: &[u8] =
    b"procedure P() { var x: bool; assert x; havoc x; assert x; if (*) { havoc x; assert x; } }";

const YES: Literal = Literal::Truth(true);

const NO: Literal = Literal::Truth(false);

const SEVEN: Literal = Literal::Number(-7);

const MAP: Literal = Literal::Map(&[(1, 8), (3, -8)]);

/// A check, truth values of the atoms, values of the incarnations, and the choices that are wanted.
type Case = (
    u32,
    &'static [bool],
    &'static [Literal],
    Option<&'static [Taken]>,
);

/// The incarnations are those at first, behind each `havoc`, and where the ways meet. One without a value has 0.
const CASES: [Case; 6] = [
    (
        0,
        &[false, false, false, false],
        &[NO, NO, NO, NO],
        Some(&[]),
    ),
    (
        1,
        &[true, false, false, false],
        &[YES, NO, NO, NO],
        Some(&[Taken::Chosen(NO)]),
    ),
    (
        3,
        &[true, true, false, false],
        &[YES, YES, NO, NO],
        Some(&[Taken::Chosen(YES), Taken::Branch(0), Taken::Chosen(NO)]),
    ),
    (3, &[true, true, true, true], &[YES, YES, YES, YES], None),
    (1, &[false, false, false, false], &[NO, NO, NO, NO], None),
    (
        3,
        &[true, true, false, false],
        &[SEVEN, MAP],
        Some(&[
            Taken::Chosen(MAP),
            Taken::Branch(0),
            Taken::Chosen(Literal::Number(0)),
        ]),
    ),
];

/// So many truth values.
fn truths_of(alloc: Global, many: u32) -> Result<Vec<ValueType>, AllocError> {
    let mut made = Vec::new(alloc);
    for _ in 0..many {
        made.push(ValueType {
            maps: Vec::new(alloc),
            base: Base::Bool,
        })?;
    }
    Ok(made)
}

fn found(alloc: Global, p: &Resolved, case: &Case) -> Result<Option<Counterexample>, Fail> {
    let callees = callees_of(alloc, p)?;
    let blocks = blocks(alloc, p, &callees, 0)?;
    let passive = passive(alloc, p, frame(p), &blocks)?;
    let forms = atoms(alloc, &[Sort::Truth; 4], 0, &passive.blocks)?
        .ok_or("no atoms")?
        .blocks;
    let (id, truths, literals, _) = *case;
    let (firsts, spot) = (&passive.firsts, Spot::Assert(id));
    let routine = Routine {
        program: p,
        frame: frame(p),
        blocks: &blocks,
        firsts,
        forms: &forms,
        front: 0,
    };
    let kinds = truths_of(alloc, 4)?;
    let values = values(alloc, literals)?;
    let valuation = Valuation {
        truths,
        kinds: &kinds,
        values: &values,
    };
    let tables = Vec::new(alloc);
    Ok(counterexample(alloc, routine, spot, &[], valuation, tables)?)
}

/// Whether these choices are taken, the value of each of which is of the type of the incarnation, a truth value.
fn are_taken(alloc: Global, cex: &Counterexample, wanted: &[Taken]) -> Result<bool, AllocError> {
    if cex.choices.len() != wanted.len() || cex.kinds.len() != wanted.len() {
        return Ok(false);
    }
    for ((choice, kind), taken) in cex.choices.iter().zip(&cex.kinds).zip(wanted) {
        let base = match taken {
            Taken::Branch(_) => Base::Int,
            Taken::Chosen(_) => Base::Bool,
        };
        if !is_taken(alloc, choice, *taken)? || kind.base != base || !kind.maps.is_empty() {
            return Ok(false);
        }
    }
    Ok(true)
}

fn tells(alloc: Global, case: &Case) -> Result<bool, Fail> {
    let p = program(alloc, &[(TEXT, 1)])?;
    let wanted = values(alloc, case.2)?;
    Ok(match (found(alloc, &p, case)?, case.3) {
        (None, None) => true,
        (Some(cex), Some(choices)) => {
            are_taken(alloc, &cex, choices)?
                && cex.globals.is_empty()
                && cex.frame.first() == wanted.first()
                && cex.frame.len() == 1
        }
        _ => false,
    })
}

#[test]
fn choices_end_at_the_check_that_fails(rt: HostRuntime) -> Result<(), Fail> {
    for case in &CASES {
        assert!(rt; tells(rt.alloc(), case)?);
    }
    Ok(())
}
