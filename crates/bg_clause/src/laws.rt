//! Laws of clauses, which are proved of the definitions alone.
ghost use Rattle.std.specs.Prelude.{◌≡◌, ℕ, ℤ, ◌+◌, ◌<◌, Bool, true, false, List, Ok, Some, None, is_some, length, slice_get};
ghost use Rattle.bg_ast.specs.Execution.{Spot};
ghost use Rattle.bg_passive.specs.Equations.{is_well};
ghost use Rattle.bg_formula.specs.Atoms.{AtomOf, IsTruth, at};
ghost use Rattle.bg_formula.specs.Formulas.{Formula, unit_atom, rows_below, is_whole};
ghost use Rattle.bg_formula.specs.Meaning.{Valuation, clauses_true};
ghost use Rattle.bg_formed.specs.Formed.{FormBlock, blocks_below};
ghost use Rattle.bg_formed.specs.Wells.{form_equations};
ghost use Rattle.bg_formed.specs.Used.{refused};
ghost use Rattle.bg_formed.specs.Agree.{AreRows, RowsAgree};
ghost use Rattle.bg_forms.specs.Worth.{bools_at};
ghost use Rattle.bg_clause.specs.Tables.{there_in};
ghost use Rattle.bg_clause.specs.Whole.{clauses_of};
ghost use Rattle.bg_clause.specs.Valued.{worth_in};

/// Where the equations deny the entry under a set of candidates and truth values of the atoms, of which those of rows are what the rows
/// are worth, there is a valuation that agrees with them and makes the clauses true; and under a valuation that makes the clauses true
/// the equations deny the entry, where atoms are worth what the valuation makes of them, and the candidates are there whose atoms it
/// makes true. No operation that counts for the target leaves the range.
pub fn clauses_fail_alike()
    ensures met { (first terms : ℕ) (named : List Bool) (rows : List AtomOf) (target : Spot) (blocks : List FormBlock) (f : Formula) → clauses_of first named terms rows target blocks ≡ Ok f →
        blocks_below (first + length rows) (bools_at named) blocks ≡ true →
        (numbers : ℕ → ℤ) (truth set : ℕ → Bool) → RowsAgree numbers truth first rows →
        is_well (slice_get (form_equations set target truth blocks) 0) ≡ false →
        (v : Valuation) × ((v.numbers ≡ numbers) × (((j : ℕ) → j < first → v.truths j ≡ truth j) ×
        (((b : ℕ) → bools_at named b ≡ true → there_in f.candidates v.truths b ≡ set b) × (clauses_true v f.atoms f.clauses ≡ true)))) }
    ensures denied { (first terms : ℕ) (named : List Bool) (rows : List AtomOf) (target : Spot) (blocks : List FormBlock) (f : Formula) → clauses_of first named terms rows target blocks ≡ Ok f →
        blocks_below (first + length rows) (bools_at named) blocks ≡ true →
        (v : Valuation) → clauses_true v f.atoms f.clauses ≡ true → is_well (slice_get (form_equations (there_in f.candidates v.truths) target (worth_in v f.atoms) blocks) 0) ≡ false }
    ensures inside { (first terms : ℕ) (named : List Bool) (rows : List AtomOf) (target : Spot) (blocks : List FormBlock) (f : Formula) → clauses_of first named terms rows target blocks ≡ Ok f → refused target blocks ≡ None }
{}

/// The first atoms are the truth variables of their numbers, and behind them stand the rows. Each candidate that is named, and no other,
/// has an atom, which is the truth variable of its number. What names an atom in the clauses names one that is there.
pub fn atoms_of_clauses()
    ensures truths { (first terms : ℕ) (named : List Bool) (rows : List AtomOf) (target : Spot) (blocks : List FormBlock) (f : Formula) → clauses_of first named terms rows target blocks ≡ Ok f →
        blocks_below (first + length rows) (bools_at named) blocks ≡ true →
        (v : Valuation) (j : ℕ) → j < first → worth_in v f.atoms j ≡ v.truths j }
    ensures rows { (first terms : ℕ) (named : List Bool) (rows : List AtomOf) (target : Spot) (blocks : List FormBlock) (f : Formula) → clauses_of first named terms rows target blocks ≡ Ok f →
        blocks_below (first + length rows) (bools_at named) blocks ≡ true →
        (v : Valuation) → AreRows rows → RowsAgree v.numbers (worth_in v f.atoms) first rows }
    ensures whole { (first terms : ℕ) (named : List Bool) (rows : List AtomOf) (target : Spot) (blocks : List FormBlock) (f : Formula) → clauses_of first named terms rows target blocks ≡ Ok f →
        blocks_below (first + length rows) (bools_at named) blocks ≡ true → rows_below terms rows ≡ true → is_whole f ≡ true }
    ensures units { (first terms : ℕ) (named : List Bool) (rows : List AtomOf) (target : Spot) (blocks : List FormBlock) (f : Formula) → clauses_of first named terms rows target blocks ≡ Ok f →
        (b a : ℕ) → unit_atom f b ≡ Some a → at f.atoms a ≡ Some (IsTruth a) }
    ensures named { (first terms : ℕ) (named : List Bool) (rows : List AtomOf) (target : Spot) (blocks : List FormBlock) (f : Formula) → clauses_of first named terms rows target blocks ≡ Ok f →
        (b : ℕ) → is_some (unit_atom f b) ≡ bools_at named b }
{}
