//! Clauses of a few blocks. How many there are is worked out by hand.
use crate::text::{chain, passive_of, program};
use bg_atoms::atoms;
use bg_clause::{Names, clauses};
use bg_formed::{FormBlock, FormCmd, Says};
use bg_forms::{Form, form_ex};
use bg_linear::Sort;
use bg_places::Spot;
use bg_slice::what_counts;
use bg_text::InfixSign;
use std::alloc::Global;
use std::test::Fail;

/// How many clauses and atoms there are for the first check.
fn counts(alloc: Global, names: &Names<'_>, blocks: &[FormBlock]) -> Result<(usize, usize), Fail> {
    match clauses(alloc, names, Spot::Assert(0), blocks) {
        Ok(f) => Ok((f.clauses.len(), f.atoms.len())),
        Err(_) => Err("refused".into()),
    }
}

/// The first block leads to two, of which the second checks `p` where the candidate is there, and the first leads there too, where
/// `q` holds. The last block has another check.
const TEXT: &[u8] = b"const {:existential true} c: bool;
procedure P(p: bool, q: bool) { goto A, B; A: assume q; goto B, C; B: assert c ==> p; C: assert p; }";

/// Atom 3 stands for the block of the check, atom 4 for that of `q`; the first block, which leads to both, has none, nor has the last
/// one, since the check isn't reached from there. The blocks with an atom have two clauses each, the first one has one.
#[test]
fn clauses_of_blocks_that_meet_again(rt: HostRuntime) -> Result<(), Fail> {
    let alloc = rt.alloc();
    let passive = passive_of(alloc, &program(alloc, &[(TEXT, 1)])?)?;
    let a = atoms(alloc, &[Sort::Truth; 2], 1, &passive.blocks)?.ok_or("no atoms")?;
    let names = Names {
        first: a.first,
        named: &[true],
        terms: a.terms,
        kept: &[],
        rows: &a.rows,
    };
    assert!(rt; counts(alloc, &names, &a.blocks)? == (5, 5));
    Ok(())
}

/// Two ways, each with checks of candidates. The choice of the way has number 0, the checks those behind it.
const WAYS: &[u8] = b"const {:existential true} a: bool;
const {:existential true} b: bool;
const {:existential true} c: bool;
procedure P(p: bool) { if (p) { assert a ==> p; } else { assert b ==> p; assert c ==> p; } }";

/// The atoms of candidates, and how many atoms there are, for the check of the second candidate, over what counts for it.
fn units(alloc: Global) -> Result<(Vec<Option<u32>>, usize), Fail> {
    let passive = passive_of(alloc, &program(alloc, &[(WAYS, 1)])?)?;
    let a = atoms(alloc, &[Sort::Truth], 3, &passive.blocks)?.ok_or("no atoms")?;
    let kept = what_counts(alloc, Spot::Assert(2), a.first, 0, 3, &a.blocks)?;
    let names = Names {
        first: a.first,
        named: &kept.named,
        terms: a.terms,
        kept: &kept.rows,
        rows: &a.rows,
    };
    match clauses(alloc, &names, Spot::Assert(2), &a.blocks) {
        Ok(f) => Ok((f.candidates, f.atoms.len())),
        Err(_) => Err("refused".into()),
    }
}

/// Atom 0 is the variable, atom 1 the one candidate that guards a command that counts; atom 2 stands for the block of its check. The
/// first block, which leads there where `p` is false, has none.
#[test]
fn a_candidate_has_an_atom_where_it_counts(rt: HostRuntime) -> Result<(), Fail> {
    let (candidates, many) = units(rt.alloc())?;
    assert!(rt; candidates.as_slice() == &[None, Some(1), None][..]);
    assert!(rt; many == 3);
    Ok(())
}

/// A sign, how many operands, and how many clauses and atoms there are where a chain is supposed: two clauses for a chain of pairs,
/// and four for the name of each pair behind them.
const CHAINS: [(InfixSign, u32, usize, usize); 4] = [
    (InfixSign::And, 50_000, 50_000, 50_000),
    (InfixSign::Or, 100_000, 1, 100_000),
    (InfixSign::Iff, 2_000, 7_994, 3_998),
    (InfixSign::Unequal, 2_000, 7_994, 3_998),
];

fn counts_of_chain(alloc: Global, sign: InfixSign, many: u32) -> Result<(usize, usize), Fail> {
    let form = form_ex(alloc, &chain(alloc, sign, many)?)?;
    let supposes = FormCmd::Supposes(None, Says::Form(form));
    let claims = FormCmd::Claims(Spot::Assert(0), None, Says::Form(Form::Plain(false)));
    let block = FormBlock {
        cmds: vec![in alloc; supposes, claims]?,
        next: Vec::new(alloc),
    };
    let names = Names {
        first: many,
        named: &[],
        terms: 0,
        kept: &[],
        rows: &[],
    };
    counts(alloc, &names, &[block])
}

#[test]
fn clauses_of_long_chains(rt: HostRuntime) -> Result<(), Fail> {
    for (sign, many, clauses, atoms) in &CHAINS {
        assert!(rt; counts_of_chain(rt.alloc(), *sign, *many)? == (*clauses, *atoms));
    }
    Ok(())
}
