//! Laws of blocks of forms, which are proved of the definitions alone.
ghost use Rattle.std.specs.Prelude.{◌≡◌, ℕ, Bool, true, List, None, slice_get};
ghost use Rattle.bg_ast.specs.Execution.{Spot};
ghost use Rattle.bg_sense.specs.Eval.{Scope};
ghost use Rattle.bg_passive.specs.Passive.{PassiveBlock};
ghost use Rattle.bg_passive.specs.Equations.{is_well, equations};
ghost use Rattle.bg_formed.specs.Formed.{FormBlock, blocks_below};
ghost use Rattle.bg_formed.specs.Wells.{form_equations};
ghost use Rattle.bg_formed.specs.Said.{SaidBlocks};
ghost use Rattle.bg_formed.specs.Used.{refused};

/// Blocks of forms that say what passive blocks say have a first block that is well for a target exactly where the passive blocks
/// have, if no operation that counts for the target leaves the range.
pub fn blocks_of_forms_are_well_alike()
    ensures { (set : ℕ → Bool) (target : Spot) (truth : ℕ → Bool) (values : Scope) (blocks : List PassiveBlock) (formed : List FormBlock) →
        SaidBlocks truth values blocks formed → refused target formed ≡ None →
        is_well (slice_get (form_equations set target truth formed) 0) ≡ is_well (slice_get (equations set target values blocks) 0) }
{}

/// Two sets of candidates that have the same of the blocks' own make the same equations.
pub fn equations_know_their_candidates()
    ensures { (atoms : ℕ) (these : ℕ → Bool) (blocks : List FormBlock) → blocks_below atoms these blocks ≡ true →
        (set other : ℕ → Bool) → ((b : ℕ) → these b ≡ true → set b ≡ other b) →
        (target : Spot) (truth : ℕ → Bool) → form_equations set target truth blocks ≡ form_equations other target truth blocks }
{}
