//! Laws of what is told of opened programs.
ghost use Rattle.std.specs.Prelude.{ℕ, Bool};
ghost use Rattle.bg_ast.specs.Resolved.{Program};
ghost use Rattle.bg_ast.specs.Meaning.{meaning_of};
ghost use Rattle.bg_ast.specs.Syntax.{Prog};
ghost use Rattle.bg_opened.specs.Written.{opened_program};
ghost use Rattle.bg_opened.specs.Openable.{IsOpenable};
ghost use Rattle.bg_opened.specs.Axioms.{axiom_program, axiom_place};
ghost use Rattle.bg_sound.specs.Told.{Axioms, Verdict, Outcome};
ghost use Rattle.bg_sound.specs.Sound.{AreAxioms, IsTrueAt, IsSound};
ghost use Rattle.bg_carried.specs.Carried.{carried, axioms_by};

/// Where a report is true of the opened program, and its word on the axioms of the program, it is true of the program, the constants'
/// values and the tables in its counterexamples being interpretations.
pub fn reports_of_opened_programs_are_true()
    ensures { (depth : ℕ) (p : Program) (axioms : Axioms) (o : Outcome) → IsOpenable depth (meaning_of p) → AreAxioms (meaning_of p) axioms →
        IsSound (opened_program depth p) o → IsSound p (carried (meaning_of p) axioms o) }
{}

/// What is true of the one place of the axioms' own program tells whether some interpretation meets the program.
pub fn axioms_are_told()
    ensures { (depth : ℕ) (p : Prog) (set : ℕ → Bool) (v : Verdict) → IsOpenable depth p → IsTrueAt (axiom_program depth p) set axiom_place v → AreAxioms p (axioms_by v) }
{}
