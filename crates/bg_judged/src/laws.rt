//! What holds of the program of each text.
ghost use Rattle.std.specs.Prelude.{ℕ, Bool, List};
ghost use Rattle.bg_ast.specs.Resolved.{Program};
ghost use Rattle.bg_ast.specs.Meaning.{meaning_of};
ghost use Rattle.bg_opened.specs.Openable.{IsOpenable};
ghost use Rattle.bg_expanded.specs.Chains.{most_bodies};
ghost use Rattle.bg_front.specs.Programs.{IsProgramOf};

/// What the reader lets through, with guesses and without, can be opened as deep as the longest chain of bodies may be: each of its maps
/// has an index.
pub fn judged_programs_are_openable()
    ensures { (guess : Bool) (bytes : List ℕ) (p : Program) → IsProgramOf guess bytes p → IsOpenable most_bodies (meaning_of p) }
{
    bg_front::laws::programs_are_typed();
    bg_front::laws::programs_are_resolved();
    bg_expanded::laws::programs_of_short_chains_are_openable();
}
