//! What the code's form of an expression over incarnations means.
ghost use Rattle.std.specs.Prelude.{◌≡◌};
ghost use Rattle.bg_ast.specs.Meaning as m;
ghost use Rattle.bg_ast.specs.Resolved as r;
ghost use Rattle.bg_passive.specs.Incarnations.{Env, rename};
ghost use Rattle.bg_renamed.specs.Renamed.{rename_r};

/// Renaming an expression as it is written means to rename what it means.
pub fn written_expressions_are_renamed()
    ensures { (e : r.Ex) (v : Env) → m.ex_of (rename_r e v) ≡ rename (m.ex_of e) v }
{}
