//! What holds of all texts of which a report tells.
ghost use Rattle.std.specs.Prelude.{◌≡◌, ℕ, List};
ghost use Rattle.bg_ast.specs.Resolved.{Program};
ghost use Rattle.bg_tool.specs.Reports.{Spells};

/// Bytes spell one program at most.
pub fn bytes_spell_one_program()
    ensures { (bytes : List ℕ) (p q : Program) → Spells bytes p → Spells bytes q → p ≡ q }
{
    bg_front::laws::a_text_has_one_tree_or_one_refusal();
    bg_meant::laws::names_mean_a_program();
}
