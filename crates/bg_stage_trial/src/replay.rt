//! How runs end.
use crate::text::program;
use crate::values::{Literal, Taken, choice, values};
use bg_base::{Op, OutOfRange};
use bg_blocks::{blocks, callees_of};
use bg_places::Spot;
use bg_replay::{Code, Ending, Start, replay};
use std::alloc::Global;
use std::test::Fail;

/// The same with variables of four kinds to choose, of which `j` is a map; an element, which is compared with another one; a map that is
/// read and one that is written at a chosen index; and a number with an index, which no typed program has.
const TEXT: &[u8] =
    b"type T = int; type U; var g: T; var h: bool; var i: U; var j: [int]int; var k: U;
procedure P(); modifies g, h, i, j;
implementation P() { havoc g; g := g + 1; assert g == 0; }
implementation P() { havoc h; g := g + 1; assert g == 0; }
implementation P() { havoc i; assert i == k; }
implementation P() { havoc j; g := g + 1; assert j[g] == 0; }
implementation P() { havoc g; assert j[g] == 0; }
implementation P() { havoc g; j[g] := 1; assert j[4] == 0; assert j[g] == j[5]; }
implementation P() { havoc g; assert g[0] == 0; }";

const LEAVES: Ending = Ending::OutOfRange(OutOfRange {
    op: Op::Plus,
    a: i128::MAX,
    b: 1,
});

const ZERO: Literal = Literal::Number(0);

const NO: Literal = Literal::Truth(false);

/// The element with this number of the second type that is declared; `k` has number 7.
const SEVEN: Literal = Literal::Element(1, 7);

/// What `j` is at first.
const MAP: Literal = Literal::Map(&[(5, 1)]);

const GLOBALS: [Literal; 5] = [ZERO, NO, SEVEN, MAP, SEVEN];

/// The number of an implementation, a choice, and how the run ends that begins with zeros, the element 7 and a map.
const CASES: [(usize, Taken, Ending); 24] = [
    (0, Taken::Chosen(Literal::Number(i128::MAX)), LEAVES),
    (0, Taken::Chosen(Literal::Number(-1)), Ending::Ended),
    (
        0,
        Taken::Chosen(Literal::Number(4)),
        Ending::Failed(Spot::Assert(0)),
    ),
    (0, Taken::Chosen(Literal::Truth(true)), Ending::BadChoice),
    (0, Taken::Chosen(Literal::Map(&[])), Ending::BadChoice),
    (0, Taken::Branch(0), Ending::BadChoice),
    (1, Taken::Chosen(Literal::Number(0)), Ending::BadChoice),
    (
        1,
        Taken::Chosen(Literal::Truth(true)),
        Ending::Failed(Spot::Assert(1)),
    ),
    (2, Taken::Chosen(Literal::Element(1, 7)), Ending::Ended),
    (
        2,
        Taken::Chosen(Literal::Element(1, -7)),
        Ending::Failed(Spot::Assert(2)),
    ),
    (2, Taken::Chosen(Literal::Element(0, 7)), Ending::BadChoice),
    (2, Taken::Chosen(Literal::Number(7)), Ending::BadChoice),
    (2, Taken::Chosen(Literal::Truth(true)), Ending::BadChoice),
    (3, Taken::Chosen(Literal::Number(0)), Ending::BadChoice),
    (3, Taken::Chosen(Literal::Map(&[])), Ending::Ended),
    (
        3,
        Taken::Chosen(Literal::Map(&[(1, 2), (3, 4)])),
        Ending::Failed(Spot::Assert(3)),
    ),
    (
        3,
        Taken::Chosen(Literal::Map(&[(3, 4), (1, 2)])),
        Ending::BadChoice,
    ),
    (
        3,
        Taken::Chosen(Literal::Map(&[(1, 2), (1, 3)])),
        Ending::BadChoice,
    ),
    (
        3,
        Taken::Chosen(Literal::Map(&[(1, 2), (3, 0)])),
        Ending::BadChoice,
    ),
    (4, Taken::Chosen(Literal::Number(0)), Ending::Ended),
    (
        4,
        Taken::Chosen(Literal::Number(5)),
        Ending::Failed(Spot::Assert(4)),
    ),
    (
        5,
        Taken::Chosen(Literal::Number(4)),
        Ending::Failed(Spot::Assert(5)),
    ),
    (5, Taken::Chosen(Literal::Number(3)), Ending::Ended),
    (6, Taken::Chosen(Literal::Number(0)), Ending::NoValues),
];

fn ends(alloc: Global, number: usize, taken: Taken, wanted: Ending) -> Result<bool, Fail> {
    let p = program(alloc, &[(TEXT, 1)])?;
    let callees = callees_of(alloc, &p)?;
    let blocks = blocks(alloc, &p, &callees, number)?;
    let globals = values(alloc, &GLOBALS)?;
    let code = Code {
        program: &p,
        blocks: &blocks,
        set: &[],
    };
    let choices = [choice(alloc, taken)?];
    let start = Start {
        tables: &[],
        globals: &globals,
        frame: &[],
        choices: &choices,
    };
    let ending = replay(alloc, code, number, start)?;
    Ok(ending == wanted)
}

#[test]
fn a_choice_decides_the_ending(rt: HostRuntime) -> Result<(), Fail> {
    for (number, taken, wanted) in &CASES {
        assert!(rt; ends(rt.alloc(), *number, *taken, *wanted)?);
    }
    Ok(())
}
