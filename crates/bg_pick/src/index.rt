//! Which clauses each literal stands in.
ghost use Rattle.std.specs.Prelude.{◌≡◌, ◌<◌, length, IfOk, OnOk, true, List, ℕ, Some};
ghost use Rattle.bg_formula.specs.declared.atom.Literal.{Literal};
ghost use Rattle.bg_formula.specs.Formulas.{formula_of, is_whole, literals_below};
ghost use Rattle.bg_cert.specs.Walks.{has};
ghost use Rattle.bg_pick.specs.declared.hint.Hint.{Hint};
ghost use Rattle.bg_pick.specs.declared.hint.Hint.TheVariants.{Member};
ghost use Rattle.bg_pick.specs.Index.{clause_at, hints_at, list_of, Names, Covers, Grows, IsIndex};

use crate::hint::{Hint, member_atom};
use bg_formula::{Clauses, Literal};
use std::alloc::{AllocError, Global};

/// All clauses and units, and for each atom those in which it stands with a sign.
#[derive(Drop)]
pub struct Index {
    pub start: Vec<Hint>,
    pub yes: Vec<Vec<Hint>>,
    pub no: Vec<Vec<Hint>>,
}

/// As many empty lists.
fn empty_lists(alloc: Global, n: usize) -> Result<Vec<Vec<Hint>>, AllocError>
    ensures { IfOk result (λ lists. length lists.items ≡ n) }
{
    let mut lists = Vec::new(alloc);
    for _ in 0..n {
        lists.push(Vec::new(alloc))?;
    }
    Ok(lists)
}

/// One more hint in the list of an atom.
fn push_at(lists: &mut Vec<Vec<Hint>>, a: usize, x: Hint) -> Result<(), AllocError>
    requires { a < length lists.old.items }
    ensures same { OnOk result (length lists.new.items ≡ length lists.old.items) }
    ensures grows { OnOk result ((b : ℕ) (y : Hint) → Names (hints_at lists.old.items b) y → Names (hints_at lists.new.items b) y) }
    ensures has { OnOk result (Names (hints_at lists.new.items a) x) }
{
    lists[a].push(x)?;
    Ok(())
}

/// One more hint in the list of a literal.
fn add_literal(i: &mut Index, l: &Literal, x: Hint) -> Result<(), AllocError>
    requires yes { l.now.atom < length i.old.yes.items }
    requires no { l.now.atom < length i.old.no.items }
    ensures yes { OnOk result (length i.new.yes.items ≡ length i.old.yes.items) }
    ensures no { OnOk result (length i.new.no.items ≡ length i.old.no.items) }
    ensures grows { OnOk result (Grows i.old i.new) }
    ensures has { OnOk result (Names (list_of i.new l.now.atom l.now.sign) x) }
{
    if l.sign {
        push_at(&mut i.yes, l.atom as usize, x)?;
        Ok(())
    } else {
        push_at(&mut i.no, l.atom as usize, x)?;
        Ok(())
    }
}

/// Names a clause wherever it belongs.
fn add_clause(i: &mut Index, clause: &[Literal], x: Hint, atoms: usize) -> Result<(), AllocError>
    requires yes { length i.old.yes.items ≡ atoms }
    requires no { length i.old.no.items ≡ atoms }
    requires low { literals_below atoms clause.now ≡ true }
    ensures yes { OnOk result (length i.new.yes.items ≡ atoms) }
    ensures no { OnOk result (length i.new.no.items ≡ atoms) }
    ensures grows { OnOk result (Grows i.old i.new) }
    ensures covers { OnOk result (Covers i.new x clause.now) }
{
    i.start.push(x)?;
    for l in clause {
        add_literal(i, l, x)?;
    }
    Ok(())
}

/// Names the unit of a candidate, if it is a member and has one.
fn add_member(
    i: &mut Index,
    f: &Clauses,
    set: &[bool],
    c: usize,
    atoms: usize,
) -> Result<(), AllocError>
    requires yes { length i.old.yes.items ≡ atoms }
    requires no { length i.old.no.items ≡ atoms }
    requires whole { is_whole (formula_of f.now) ≡ true }
    requires sized { atoms ≡ length (formula_of f.now).atoms }
    ensures yes { OnOk result (length i.new.yes.items ≡ atoms) }
    ensures no { OnOk result (length i.new.no.items ≡ atoms) }
    ensures grows { OnOk result (Grows i.old i.new) }
    ensures covers { OnOk result ((d : List Literal) → clause_at (formula_of f.now) (has set.now) (Member c) ≡ Some d → Covers i.new (Member c) d) }
{
    match member_atom(f, set, c) {
        Some(a) => {
            let clause = [Literal {
                atom: a,
                sign: true,
            }];
            add_clause(i, &clause, Hint::Member(c), atoms)
        }
        None => Ok(()),
    }
}

/// The index of a formula with the units of a set. Takes time for each literal and each candidate.
pub fn index_of(alloc: Global, f: &Clauses, set: &[bool]) -> Result<Index, AllocError>
    requires { is_whole (formula_of f.now) ≡ true }
    ensures { IfOk result (λ i. IsIndex (formula_of f.now) (has set.now) i) }
{
    let atoms = f.atoms.len();
    let mut i = Index {
        start: Vec::new(alloc),
        yes: empty_lists(alloc, atoms)?,
        no: empty_lists(alloc, atoms)?,
    };
    for (k, clause) in f.clauses.iter().enumerate() {
        add_clause(&mut i, clause, Hint::Nth(k), atoms)?;
    }
    for c in 0..f.candidates.len() {
        add_member(&mut i, f, set, c, atoms)?;
    }
    Ok(i)
}
