//! Laws of programs without faults of names.
ghost use Rattle.std.specs.Prelude.{◌≡◌, ℕ, false, List, []};
ghost use Rattle.bg_text.specs.Trees as t;
ghost use Rattle.bg_text.specs.Types.{All};
ghost use Rattle.bg_text.specs.Statements.{AreSts};
ghost use Rattle.bg_text.specs.Declarations.{IsDecl};
ghost use Rattle.bg_ast.specs.Meaning.{ex_of, meaning_of};
ghost use Rattle.bg_names.specs.Spaces.{Scope};
ghost use Rattle.bg_names.specs.Exprs.{ex_faults, named_ex};
ghost use Rattle.bg_names.specs.Clauses.{clause_faults, named_clause};
ghost use Rattle.bg_names.specs.Inside.{Inside};
ghost use Rattle.bg_bodies.specs.Bodies.{sts_faults, named_sts};
ghost use Rattle.bg_spaces.specs.Declarations.{repeated, spaces_of};
ghost use Rattle.bg_resolve.specs.Program.{plain_faults, named};
ghost use Rattle.bg_resolve.specs.Resolves.{Recursion};
ghost use Rattle.bg_sense.specs.Typing.{Sig};
ghost use Rattle.bg_sense.specs.Typed.{Around, HasNoOld};
ghost use Rattle.bg_sense.specs.Recursion.{HasNoRecursion};
ghost use Rattle.bg_typed.specs.Naming.{IsNamed};
ghost use Rattle.bg_typed.specs.Bodies.{AreNamedStatements};
ghost use Rattle.bg_typed.specs.Programs.{IsNamedProgram};
ghost use Rattle.bg_named.specs.Numbers.{HasNumbers};
ghost use Rattle.bg_named.specs.Covers.{Covers, CoversBody};

/// In a scope that a signature covers, an expression without faults of names has numbers of declarations alone.
pub fn expressions_are_named()
    ensures { (s : Scope) (g : Sig) (e : t.Ex) → Covers s g → ex_faults s e ≡ [] → IsNamed g (named_ex s e) }
{}

/// Where `old` has no meaning, an expression without faults of names means one without it.
pub fn expressions_have_no_old()
    ensures { (s : Scope) (e : t.Ex) → s.has_old ≡ false → ex_faults s e ≡ [] → HasNoOld (ex_of (named_ex s e)) }
{}

/// In a scope that a signature covers, a clause without faults of names says, behind the candidate that guards it, what has numbers of
/// declarations alone.
pub fn clauses_are_named()
    ensures { (s : Scope) (g : Sig) (n : ℕ) (k : t.Clause) → Covers s g → clause_faults s k ≡ [] → IsNamed g (named_clause s n k).says }
{}

/// Where `old` has no meaning, a clause without faults of names says what means an expression without it.
pub fn clauses_have_no_old()
    ensures { (s : Scope) (n : ℕ) (k : t.Clause) → s.has_old ≡ false → clause_faults s k ≡ [] → HasNoOld (ex_of (named_clause s n k).says) }
{}

/// In a body that is covered, statements without faults of names name declarations alone, change what may be changed, and jump to
/// labels ahead and out of what is around them.
pub fn statements_are_named()
    ensures { (b : Inside) (w : Around) (n : ℕ) (ss : t.Sts) → CoversBody b w → AreSts ss → sts_faults b [] false [] [] ss ≡ [] → AreNamedStatements w [] [] (named_sts b n 0 [] [] ss) }
{}

/// Where no name is declared twice, the number of a name is the place of a declaration with this name, among those of its kind.
pub fn numbers_stand_for_names()
    ensures { (ds : List t.Decl) → repeated ds ≡ [] → HasNumbers (spaces_of ds) (named ds) }
{}

/// A program of the grammar without faults of names names declarations alone, changes what may be changed, and jumps to labels
/// ahead and out of what is around.
pub fn resolved_programs_are_named()
    ensures { (ds : List t.Decl) → All IsDecl ds → plain_faults ds ≡ [] → IsNamedProgram (named ds) }
{}

/// Where there is no fault of recursion either, no function's body reaches the function.
pub fn functions_do_not_recur()
    ensures { (ds : List t.Decl) → plain_faults ds ≡ [] → Recursion ds [] → HasNoRecursion (meaning_of (named ds)) }
{
    bg_resolve::laws::calls_go_to_functions();
    bg_typed::laws::an_acyclic_graph_has_ranks();
}
