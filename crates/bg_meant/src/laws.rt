//! What names mean is what they are numbered, and what that owes.
ghost use Rattle.std.specs.Prelude.{◌≡◌, ℕ, false, List, [], None, flat_map};
ghost use Rattle.bg_text.specs.Trees as t;
ghost use Rattle.bg_text.specs.Types.{All};
ghost use Rattle.bg_text.specs.Declarations.{IsDecl};
ghost use Rattle.bg_ast.specs.Meaning.{meaning_of};
ghost use Rattle.bg_ast.specs.Resolved as r;
ghost use Rattle.bg_names.specs.Spaces.{Scope};
ghost use Rattle.bg_names.specs.Exprs.{ex_faults, named_ex};
ghost use Rattle.bg_meant.specs.Means.{Means};
ghost use Rattle.bg_resolve.specs.Program.{decl_faults, plain_faults, named};
ghost use Rattle.bg_resolve.specs.Resolves.{Recursion};
ghost use Rattle.bg_sense.specs.Resolved.{IsResolved};
ghost use Rattle.bg_names.specs.Inside.{Inside};
ghost use Rattle.bg_bodies.specs.Bodies.{sts_faults, named_sts};
ghost use Rattle.bg_meant.specs.Statements.{MeanSts};
ghost use Rattle.bg_spaces.specs.Declarations.{Spaces};
ghost use Rattle.bg_resolve.specs.Parts.{parts_from};
ghost use Rattle.bg_meant.specs.Declared.{MeanDecls, MeansProgram};

/// A program of the grammar without faults of names has numbers of its own for its clauses, calls, loops, conditionals and labels, names
/// procedures and candidates that are there, and modifies globals by declaration.
pub fn programs_are_resolved()
    ensures { (ds : List t.Decl) → All IsDecl ds → plain_faults ds ≡ [] → IsResolved (meaning_of (named ds)) }
{}

/// An expression has no fault of names exactly where it means something by the rules, one a form; then it means what it is named.
pub fn faultless_expressions_mean_something()
    ensures none { (g : Scope) (a : t.Ex) (e : r.Ex) → Means g a e → (ex_faults g a ≡ []) × (named_ex g a ≡ e) }
    ensures some { (g : Scope) (a : t.Ex) → ex_faults g a ≡ [] → Means g a (named_ex g a) }
{}

/// A body's statements have no fault of names exactly where they mean something by the rules, one a form; then they mean what they are
/// named.
pub fn faultless_statements_mean_something()
    ensures none { (b : Inside) (n : ℕ) (ss : t.Sts) (es : r.Sts) → MeanSts b [] None [] [] n ss es → (sts_faults b [] false [] [] ss ≡ []) × (named_sts b n 0 [] [] ss ≡ es) }
    ensures some { (b : Inside) (n : ℕ) (ss : t.Sts) → sts_faults b [] false [] [] ss ≡ [] → MeanSts b [] None [] [] n ss (named_sts b n 0 [] [] ss) }
{}

/// Declarations have no fault of names but those of second declarations exactly where they mean something by the rules, one a form; then
/// they mean what they are named.
pub fn faultless_declarations_mean_something()
    ensures none { (g : Spaces) (n : ℕ) (ds : List t.Decl) (p : r.Program) → MeanDecls g n ds p → (flat_map (decl_faults g) ds ≡ []) × (parts_from g n ds ≡ p) }
    ensures some { (g : Spaces) (n : ℕ) (ds : List t.Decl) → flat_map (decl_faults g) ds ≡ [] → MeanDecls g n ds (parts_from g n ds) }
{}

/// Declarations mean a program by the rules, one a form, exactly where they have no fault of names and none of recursion; then it is the
/// program with numbers for names.
pub fn names_mean_a_program()
    ensures none { (ds : List t.Decl) (p : r.Program) → MeansProgram ds p → (plain_faults ds ≡ []) × Recursion ds [] × (p ≡ named ds) }
    ensures some { (ds : List t.Decl) → plain_faults ds ≡ [] → Recursion ds [] → MeansProgram ds (named ds) }
{
    bg_named::laws::functions_do_not_recur();
}
