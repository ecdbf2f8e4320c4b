//! Laws of what is left for a target, which are proved of the definitions alone.
ghost use Rattle.std.specs.Prelude.{◌≡◌, ℕ, ◌<◌, nat_lt, Bool, true, List, length, ℤ};
ghost use Rattle.bg_ast.specs.Execution.{Spot};
ghost use Rattle.bg_sense.specs.Eval.{Scope};
ghost use Rattle.bg_passive.specs.Passive.{PassiveBlock};
ghost use Rattle.bg_formula.specs.Atoms.{AtomOf};
ghost use Rattle.bg_formula.specs.Formulas.{rows_below};
ghost use Rattle.bg_formula.specs.Meaning.{AtomsAgree};
ghost use Rattle.bg_formed.specs.Formed.{FormBlock, blocks_below};
ghost use Rattle.bg_formed.specs.Said.{SaidBlocks};
ghost use Rattle.bg_formed.specs.Used.{refused};
ghost use Rattle.bg_formed.specs.Agree.{AreRows, RowsAgree};
ghost use Rattle.bg_forms.specs.Worth.{bools_at};
ghost use Rattle.bg_slice.specs.Slices.{sliced, sliced_rows, guards_in};

/// The same operation leaves the range first, if any.
pub fn slices_use_alike()
    ensures { (target : Spot) (blocks : List FormBlock) → refused target (sliced target blocks) ≡ refused target blocks }
{}

/// No atom and no candidate comes in; and the candidates of blocks are those that guard their commands.
pub fn slices_are_below()
    ensures less { (target : Spot) (atoms : ℕ) (these : ℕ → Bool) (blocks : List FormBlock) → blocks_below atoms these blocks ≡ true →
        blocks_below atoms these (sliced target blocks) ≡ true }
    ensures named { (atoms candidates : ℕ) (blocks : List FormBlock) → blocks_below atoms (λ b. nat_lt b candidates) blocks ≡ true →
        blocks_below atoms (bools_at (guards_in candidates blocks)) blocks ≡ true }
    ensures count { (candidates : ℕ) (blocks : List FormBlock) → length (guards_in candidates blocks) ≡ candidates }
{}

/// As many rows are left, each with its denial, and no term comes in.
pub fn slices_have_rows()
    ensures are_rows { (base : ℕ) (blocks : List FormBlock) (rows : List AtomOf) → AreRows rows → AreRows (sliced_rows base blocks rows) }
    ensures agree { (base : ℕ) (blocks : List FormBlock) (rows : List AtomOf) → AtomsAgree rows → AtomsAgree (sliced_rows base blocks rows) }
    ensures below { (base terms : ℕ) (blocks : List FormBlock) (rows : List AtomOf) → rows_below terms rows ≡ true →
        rows_below terms (sliced_rows base blocks rows) ≡ true }
    ensures count { (base : ℕ) (blocks : List FormBlock) (rows : List AtomOf) → length (sliced_rows base blocks rows) ≡ length rows }
{}

/// Where the rows that are left agree with numbers, some truth values of the atoms agree with them on all rows, and on the atoms in
/// front of the rows are the same; and what passive blocks say under these the blocks that are left say too.
pub fn slices_say_the_same()
    ensures { (numbers : ℕ → ℤ) (truth : ℕ → Bool) (base : ℕ) (rows : List AtomOf) (target : Spot) (blocks : List FormBlock) → AreRows rows →
        RowsAgree numbers truth base (sliced_rows base (sliced target blocks) rows) →
        (whole : ℕ → Bool) × ((((j : ℕ) → j < base → whole j ≡ truth j) × RowsAgree numbers whole base rows) ×
        ((values : Scope) (passive : List PassiveBlock) → SaidBlocks whole values passive blocks → SaidBlocks truth values passive (sliced target blocks))) }
{}
