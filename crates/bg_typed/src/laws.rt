//! Laws that hold of what is judged.
ghost use Rattle.std.specs.Prelude.{◌≡◌, ◌<◌, ◌≤◌, ℕ, List, [], ◌∷◌, Some, length};
ghost use Rattle.bg_graph.specs.Graphs.{Graph, IsEdge, IsGraph, IsAcyclic};
ghost use Rattle.bg_ast.specs.Values.{Ty};
ghost use Rattle.bg_ast.specs.Resolved as r;
ghost use Rattle.bg_ast.specs.Resolved.{Ex, Sts};
ghost use Rattle.bg_base.specs.declared.pos.Pos.{Pos};
ghost use Rattle.bg_ast.specs.Meaning.{ex_of, st_of, sts_of, impl_of, type_in, named_of, meaning_of};
ghost use Rattle.bg_typed.specs.Rules.{IsEven, AreEven, HasIndices, KeepsTypes};
ghost use Rattle.bg_sense.specs.Typing.{Sig, HasType};
ghost use Rattle.bg_sense.specs.Typed.{Around, IsLinear, IsFormula, IsTypedStatement, IsTyped};
ghost use Rattle.bg_kinds.specs.Kinds.{Kind, kind_in, type_faults};
ghost use Rattle.bg_kinds.specs.Synonyms.{IsUnfolded, synonym_graph};
ghost use Rattle.bg_typing.specs.Sides.{Scope};
ghost use Rattle.bg_typing.specs.Exprs.{judge};
ghost use Rattle.bg_typing.specs.Stmts.{truth_faults, sts_faults};
ghost use Rattle.bg_types.specs.Programs.{synonyms_faults};
ghost use Rattle.bg_types.specs.Verdicts.{IsWellTyped};
ghost use Rattle.bg_typed.specs.Agreement.{Agrees};
ghost use Rattle.bg_typed.specs.Covering.{Gives, GivesAround};
ghost use Rattle.bg_typed.specs.Naming.{Matches, IsNamed};
ghost use Rattle.bg_typed.specs.Bodies.{MatchesAround, AreNamedStatements};
ghost use Rattle.bg_typed.specs.Programs.{IsNamedProgram};

/// An expression without faults that is found to have a type has it, and each of its products has a constant side.
pub fn judged_expressions_are_typed()
    ensures { (g : Scope) (s : Sig) (e : Ex) (t : Ty) → Agrees g s → (judge g e).faults ≡ [] → (judge g e).side.kind ≡ Some t → HasType (ex_of e) s t × IsLinear (ex_of e) }
{}

/// What is found to be a truth value without a fault, and each name of which is declared, is a formula.
pub fn formulas_are_formulas()
    ensures { (g : Scope) (s : Sig) (e : Ex) → Matches g s → IsNamed s e → truth_faults g e ≡ [] → IsFormula s (ex_of e) }
{}

/// Statements without faults are typed, where each name is declared and what they change and where they jump to is allowed.
pub fn bodies_are_typed()
    ensures { (g : Scope) (w : Around) (a : Sts) → MatchesAround g w → AreNamedStatements w [] [] a → sts_faults g a ≡ [] → IsTypedStatement w [] [] (sts_of a) }
{}

/// Where no node reaches itself, each node has a rank, which falls along each edge and is at most the number of nodes; a node has one below it, where each edge goes to a node.
pub fn an_acyclic_graph_has_ranks()
    ensures { (g : Graph) → IsAcyclic g → (rank : ℕ → ℕ) × ((f t : ℕ) → IsEdge g f t → rank t < rank f) × ((f : ℕ) → rank f ≤ length g) × (IsGraph g → (f : ℕ) → f < length g → rank f < length g) }
{}

/// Where no synonym reaches itself and none has a fault, a declared type stands for the type that it means.
pub fn declared_types_stand_for_their_meaning()
    ensures { (ds : List r.TypeName) (named : ℕ → Kind) → IsAcyclic (synonym_graph ds) → IsUnfolded ds named → synonyms_faults named ds ≡ [] → (k : ℕ) → named k ≡ Some (named_of ds k) }
{}

/// There a written type without faults stands for the type that it means.
pub fn written_types_stand_for_their_meaning()
    ensures { (ds : List r.TypeName) (named : ℕ → Kind) → IsAcyclic (synonym_graph ds) → IsUnfolded ds named → synonyms_faults named ds ≡ [] → (t : r.Ty) → type_faults named t ≡ [] → kind_in named t ≡ Some (type_in (named_of ds) t) }
{}

/// A program without faults of names and types is typed.
pub fn well_typed_programs_are_typed()
    ensures { (p : r.Program) → IsNamedProgram p → IsWellTyped p → IsTyped (meaning_of p) }
{}

/// An expression that has a type, and each of whose products has a constant side, has no fault and is found to have this type.
pub fn typed_expressions_have_no_fault()
    ensures { (g : Scope) (s : Sig) (e : Ex) (t : Ty) → Gives g s → HasType (ex_of e) s t → IsLinear (ex_of e) → ((judge g e).faults ≡ []) × ((judge g e).side.kind ≡ Some t) }
{}

/// The meaning alone doesn't show that a right side is too many, that an index type is none, nor an implementation's own parameters and
/// results: so rules of types that speak of the meaning alone would let them pass.
pub fn meanings_forget()
    ensures sides { (p : Pos) (t : r.Target) (a b : Ex) → (st_of (r.Assign p (t ∷ []) (r.More a (r.More b r.NoMore))) ≡ st_of (r.Assign p (t ∷ []) (r.More a r.NoMore))) × (IsEven (r.Assign p (t ∷ []) (r.More a (r.More b r.NoMore))) → ⊥) }
    ensures indices { (named : ℕ → Ty) (p : Pos) (t : r.Ty) →
        (type_in named (r.MapType (r.Index p (r.OneType (r.BoolType p) r.NoType) r.NoIndex) t) ≡ type_in named (r.MapType (r.Index p (r.OneType (r.IntType p) r.NoType) r.NoIndex) t))
        × (HasIndices named (r.MapType (r.Index p (r.OneType (r.BoolType p) r.NoType) r.NoIndex) t) → ⊥) }
    ensures names { (named : ℕ → Ty) (m : r.Impl) (ds es : List r.Declared) → impl_of named (record m { params = ds; results = es }) ≡ impl_of named m }
{}

/// Statements that are typed, each assignment of which has as many right sides as left ones, have no fault.
pub fn typed_bodies_have_no_fault()
    ensures { (g : Scope) (w : Around) (a : Sts) → GivesAround g w → IsTypedStatement w [] [] (sts_of a) → AreEven a → sts_faults g a ≡ [] }
{}

/// A program that keeps the rules of types, one a form, has no fault of types.
pub fn programs_that_keep_the_rules_have_no_fault()
    ensures { (p : r.Program) → KeepsTypes p → IsWellTyped p }
{}

/// A program without faults of types, whose names are declared, keeps the rules of types.
pub fn faultless_programs_keep_the_rules()
    ensures { (p : r.Program) → IsWellTyped p → IsNamedProgram p → KeepsTypes p }
{}
