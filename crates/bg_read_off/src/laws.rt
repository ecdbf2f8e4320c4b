//! Laws of leaves, which are proved of the definitions alone.
ghost use Rattle.std.specs.Prelude.{◌≡◌, ℕ, ◌++◌, true, false, List, [], map, Some, slice_get, length, IsTrue};
ghost use Rattle.bg_ast.specs.Values.{Val, Ty};
ghost use Rattle.bg_ast.specs.Syntax.{Fun};
ghost use Rattle.bg_ast.specs.Execution.{Interp};
ghost use Rattle.bg_sense.specs.Types.{are_of};
ghost use Rattle.bg_sense.specs.Tables.{are_tables};
ghost use Rattle.bg_terms.specs.Terms.{Term, Updates, IsModel};
ghost use Rattle.bg_terms.specs.Alike.{StandFor, scalar_ty};
ghost use Rattle.bg_terms.specs.Closed.{IsFinished, is_differs};
ghost use Rattle.bg_terms.specs.Flat.{HaveNoBodies};
ghost use Rattle.bg_terms.specs.Tables.{IsReadOff};
ghost use Rattle.bg_terms.specs.Typed.{TermsTyped, types_with};
ghost use Rattle.bg_read_off.specs.Leaves.{AreBuilt, AreCongruent, silent};

/// Where terms are typed and have values of their types, there is a table for each function, in normal form, that gives what the first
/// application with these arguments is worth, and else the default of its result's type.
pub fn scalar_leaves_have_interpretations()
    ensures { (fs : List Fun) (incs : List Ty) (ts : List Term) (w : List Val) → HaveNoBodies fs → TermsTyped fs incs ts → are_of (types_with incs ts) w ≡ true →
        (i : Interp) × ((i.constants ≡ []) × (IsTrue (are_tables fs i.tables) × IsReadOff i (silent fs) w (length incs) ts)) }
{}

/// At a finished leaf scalars stand for the values that are built for them, and no congruence is false of these.
pub fn finished_leaves_stand()
    ensures stand { (n : ℕ) (ts : List Term) (tys : List Ty) (s w : List Val) → are_of (map scalar_ty tys) s ≡ true → AreBuilt n ts tys s w →
        IsFinished s n ts tys → StandFor tys w s }
    ensures congruent { (fs : List Fun) (incs : List Ty) (ts : List Term) (s w : List Val) → TermsTyped fs incs ts →
        are_of (map scalar_ty (types_with incs ts)) s ≡ true → AreBuilt (length incs) ts (types_with incs ts) s w →
        IsFinished s (length incs) ts (types_with incs ts) → AreCongruent w (length incs) ts }
{
    bg_terms::laws::scalars_stand_for_what_is_built();
    congruences_stay()
}

/// At a finished leaf terms, of which none is a part of an index and each map that is updated has an index, are worth, in the values that
/// are built, what the interpretation makes of them that is read off these; other terms may stand behind them.
pub fn finished_leaves_are_models()
    ensures { (fs : List Fun) (i : Interp) (incs : List Ty) (ts us : List Term) (s w : List Val) →
        TermsTyped fs incs (ts ++ us) → ((a : ℕ) (u : Term) → slice_get ts a ≡ Some u → is_differs u.head ≡ false) →
        ((a : ℕ) (u : Term) (t : Ty) → slice_get ts a ≡ Some u → u.head ≡ Updates [] t → ⊥) →
        are_of (map scalar_ty (types_with incs (ts ++ us))) s ≡ true → AreBuilt (length incs) (ts ++ us) (types_with incs (ts ++ us)) s w →
        IsFinished s (length incs) (ts ++ us) (types_with incs (ts ++ us)) → IsReadOff i (silent fs) w (length incs) (ts ++ us) →
        IsModel i w (length incs) ts }
{
    bg_terms::laws::finished_leaves_give_models()
}

/// A congruence of typed terms is true of values where it is of scalars that stand for them.
pub fn congruences_stay()
    ensures { (fs : List Fun) (incs : List Ty) (ts : List Term) (s w : List Val) → TermsTyped fs incs ts → StandFor (types_with incs ts) w s →
        AreCongruent s (length incs) ts → AreCongruent w (length incs) ts }
{
    bg_terms::laws::scalars_say_the_same();
    bg_terms::laws::instances_are_typed()
}
