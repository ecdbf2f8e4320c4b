//! What the axioms' own program means.
ghost use Rattle.std.specs.Prelude.{◌≡◌, ℕ};
ghost use Rattle.bg_ast.specs.Meaning.{meaning_of};
ghost use Rattle.bg_ast.specs.Resolved.{Program};
ghost use Rattle.bg_opened.specs.Axioms as m;
ghost use Rattle.bg_opening.specs.Axioms as a;

use bg_opened::laws::written_programs_are_opened;

/// The axioms' own program as it is written means that of what the program means.
pub fn written_axiom_programs_are_those_of_the_meaning()
    ensures { (depth : ℕ) (p : Program) → meaning_of (a.axiom_program depth p) ≡ m.axiom_program depth (meaning_of p) }
{
    written_programs_are_opened()
}
