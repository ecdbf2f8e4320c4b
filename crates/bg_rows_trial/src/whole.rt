//! Whether a formula made by hand names atoms and terms that are there.
ghost use Rattle.std.specs.Prelude.{◌≡◌, map};
ghost use Rattle.bg_formula.specs.Atoms.{atom_of};
ghost use Rattle.bg_formula.specs.Formulas.{formula_of, literals_below, clauses_below, units_below, entries_below, atom_below, rows_below, is_whole};

use bg_formula::{Atom, Clauses, Literal};
use bg_rows::Entry;

fn literals_below(atoms: usize, clause: &[Literal]) -> bool
    ensures { result ≡ literals_below atoms clause.now }
{
    for l in clause {
        if l.atom as usize >= atoms {
            return false;
        }
    }
    true
}

fn clauses_below(atoms: usize, clauses: &[Vec<Literal>]) -> bool
    ensures { result ≡ clauses_below atoms (map (λ c. c.items) clauses.now) }
{
    for c in clauses {
        if !literals_below(atoms, c) {
            return false;
        }
    }
    true
}

fn units_below(atoms: usize, candidates: &[Option<u32>]) -> bool
    ensures { result ≡ units_below atoms candidates.now }
{
    for c in candidates {
        if let Some(a) = c {
            if *a as usize >= atoms {
                return false;
            }
        }
    }
    true
}

fn entries_below(terms: u32, entries: &[Entry]) -> bool
    ensures { result ≡ entries_below terms entries.now }
{
    for t in entries {
        if t.variable >= terms {
            return false;
        }
    }
    true
}

fn atom_below(terms: u32, atom: &Atom) -> bool
    ensures { result ≡ atom_below terms (atom_of atom.now) }
{
    match atom {
        Atom::Truth(_) => true,
        Atom::Holds(l) => entries_below(terms, &l.row.entries),
    }
}

fn rows_below(terms: u32, atoms: &[Atom]) -> bool
    ensures { result ≡ rows_below terms (map atom_of atoms.now) }
{
    for a in atoms {
        if !atom_below(terms, a) {
            return false;
        }
    }
    true
}

/// Whether each literal's atom and each candidate's is one of the formula's, and each term of a row
/// is below the formula's number of terms.
pub fn is_whole(f: &Clauses) -> bool
    ensures { result ≡ is_whole (formula_of f.now) }
{
    let atoms = f.atoms.len();
    clauses_below(atoms, &f.clauses)
        && (units_below(atoms, &f.candidates) && rows_below(f.terms, &f.atoms))
}
