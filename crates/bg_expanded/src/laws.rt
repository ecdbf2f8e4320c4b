//! What chains of bodies say of a program.
ghost use Rattle.std.specs.Prelude.{◌≡◌, ◌≤◌, ℕ, true};
ghost use Rattle.bg_ast.specs.Resolved.{Program};
ghost use Rattle.bg_ast.specs.Meaning.{meaning_of};
ghost use Rattle.bg_sense.specs.Typed.{IsTyped};
ghost use Rattle.bg_sense.specs.Resolved.{IsResolved};
ghost use Rattle.bg_sense.specs.Recursion.{HasNoRecursion};
ghost use Rattle.bg_opened.specs.Judged.{is_judged};
ghost use Rattle.bg_opened.specs.Openable.{IsOpenable};
ghost use Rattle.bg_expanded.specs.Chains.{longest_chain};

/// A typed and resolved program of judged parts without recursion, in which no chain of bodies is longer than the depth, can be opened so
/// deep.
pub fn programs_of_short_chains_are_openable()
    ensures { (depth : ℕ) (p : Program) → IsTyped (meaning_of p) → IsResolved (meaning_of p) → HasNoRecursion (meaning_of p) → is_judged (meaning_of p) ≡ true → longest_chain p ≤ depth → IsOpenable depth (meaning_of p) }
{}
