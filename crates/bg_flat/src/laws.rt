//! Laws of flat blocks, which are proved of the definitions alone.
ghost use Rattle.std.specs.Prelude.{◌≡◌, ℕ, ◌+◌, ◌<◌, ◌||◌, ◌++◌, Bool, true, false, not, List, [], Some, map, slice_get, length};
ghost use Rattle.bg_ast.specs.Values.{Val, Ty};
ghost use Rattle.bg_ast.specs.Syntax.{Ex, Fun, Prog};
ghost use Rattle.bg_ast.specs.Execution.{Interp, Spot};
ghost use Rattle.bg_sense.specs.Eval.{value_at};
ghost use Rattle.bg_sense.specs.Types.{are_of};
ghost use Rattle.bg_sense.specs.Interps.{IsInterp};
ghost use Rattle.bg_passive.specs.Passive.{PassiveBlock};
ghost use Rattle.bg_passive.specs.Incarnations.{passive_scope};
ghost use Rattle.bg_passive.specs.Equations.{is_well, equations};
ghost use Rattle.bg_terms.specs.Terms.{Term, Head, Updates, IsModel, over, are_in_order};
ghost use Rattle.bg_terms.specs.Alike.{StandFor, scalar_ty};
ghost use Rattle.bg_terms.specs.Built.{built};
ghost use Rattle.bg_terms.specs.Closed.{IsFinished, is_differs};
ghost use Rattle.bg_terms.specs.Flat.{HaveNoBodies};
ghost use Rattle.bg_terms.specs.Instances.{Instance};
ghost use Rattle.bg_terms.specs.Tables.{IsReadOff};
ghost use Rattle.bg_terms.specs.Typed.{TermsTyped, types_with};
ghost use Rattle.bg_flat.specs.Blocks.{FlatBlocks, in_front, all_true};
ghost use Rattle.bg_flat.specs.Fronts.{stated, AreIndexed, HaveLinearArgs, AreTruths, EachLinear};

/// What instances of typed and linear terms say is a list of linear truths.
pub fn instances_are_linear_truths()
    ensures truths { (functions : List Fun) (incs : List Ty) (ts : List Term) (instances : List Instance) → TermsTyped functions incs ts →
        AreTruths (types_with incs ts) (stated (length incs) ts instances) }
    ensures linear { (n : ℕ) (ts : List Term) (instances : List Instance) → HaveLinearArgs ts → EachLinear (stated n ts instances) }
{
    bg_terms::laws::instances_are_typed();
    bg_terms::laws::instances_are_linear()
}

/// Where terms have their values and scalars stand for the values, flat blocks behind a front are well exactly where the front is false or the blocks
/// are well that were made flat.
pub fn flat_blocks_are_well_alike()
    ensures { (p : Prog) (i : Interp) (tys : List Ty) (n : ℕ) (ts : List Term) (w scalars values : List Val) (set : ℕ → Bool) (target : Spot) (front : List Ex) (blocks flat : List PassiveBlock) →
        HaveNoBodies p.functions → IsModel i w n ts → ((j : ℕ) → j < n → value_at w j ≡ value_at values j) → StandFor tys w scalars →
        FlatBlocks tys n ts blocks flat →
        is_well (slice_get (equations set target (over scalars) (in_front front flat)) 0)
        ≡ (not (all_true (over scalars) front) || is_well (slice_get (equations set target (passive_scope p i values) blocks) 0)) }
{
    bg_terms::laws::flat_expressions_say_the_same();
    bg_terms::laws::scalars_say_the_same()
}

/// Where blocks are denied under an interpretation and typed values of the incarnations, whatever instances stand in front, there are typed
/// scalars under which the flat blocks are denied.
pub fn denied_blocks_have_scalars()
    ensures { (p : Prog) (i : Interp) (incs : List Ty) (ts : List Term) (values : List Val) (set : ℕ → Bool) (target : Spot) (instances : List Instance) (blocks flat : List PassiveBlock) →
        HaveNoBodies p.functions → IsInterp p i → are_of incs values ≡ true → TermsTyped p.functions incs ts → are_in_order (length incs) ts ≡ true → AreIndexed ts →
        FlatBlocks (types_with incs ts) (length incs) ts blocks flat →
        is_well (slice_get (equations set target (passive_scope p i values) blocks) 0) ≡ false →
        (s : List Val) × ((are_of (map scalar_ty (types_with incs ts)) s ≡ true)
        × (is_well (slice_get (equations set target (over s) (in_front (stated (length incs) ts instances) flat)) 0) ≡ false)) }
{
    bg_terms::laws::scalars_say_the_same();
    bg_terms::laws::instances_are_true();
    bg_terms::laws::terms_have_values();
    bg_terms::laws::models_are_typed();
    bg_terms::laws::values_have_scalars();
    instances_are_linear_truths();
    flat_blocks_are_well_alike()
}

/// Where flat blocks are denied, whatever stands in front, under scalars that stand for a model of the blocks' terms, the blocks are denied under
/// the values of the incarnations.
pub fn denied_flat_blocks_fail()
    ensures { (p : Prog) (i : Interp) (tys : List Ty) (n : ℕ) (ts : List Term) (w s values : List Val) (set : ℕ → Bool) (target : Spot) (front : List Ex) (blocks flat : List PassiveBlock) →
        HaveNoBodies p.functions → IsModel i w n ts → StandFor tys w s → ((j : ℕ) → j < n → value_at w j ≡ value_at values j) →
        FlatBlocks tys n ts blocks flat →
        is_well (slice_get (equations set target (over s) (in_front front flat)) 0) ≡ false →
        is_well (slice_get (equations set target (passive_scope p i values) blocks) 0) ≡ false }
{
    flat_blocks_are_well_alike()
}

/// At a finished leaf of flat blocks that are denied, whatever stands in front, the blocks are denied under the interpretation that is read off
/// the built values, and under the built values of the incarnations. The terms of the blocks stand first.
pub fn finished_leaves_fail()
    ensures { (p : Prog) (i : Interp) (defaults : Head → Val) (incs : List Ty) (ts us : List Term) (s w values : List Val) (set : ℕ → Bool) (target : Spot) (front : List Ex) (blocks flat : List PassiveBlock) →
        HaveNoBodies p.functions → TermsTyped p.functions incs (ts ++ us) → are_of (map scalar_ty (types_with incs (ts ++ us))) s ≡ true →
        IsFinished s (length incs) (ts ++ us) (types_with incs (ts ++ us)) →
        ((j : ℕ) (t : Ty) → slice_get (types_with incs (ts ++ us)) j ≡ Some t → value_at w j ≡ built s (length incs) (ts ++ us) t (value_at s j)) →
        IsReadOff i defaults w (length incs) (ts ++ us) →
        ((a : ℕ) (x : Term) → slice_get ts a ≡ Some x → (is_differs x.head ≡ false) × ((t : Ty) → x.head ≡ Updates [] t → ⊥)) →
        ((j : ℕ) → j < length incs → value_at w j ≡ value_at values j) →
        FlatBlocks (types_with incs (ts ++ us)) (length incs) ts blocks flat →
        is_well (slice_get (equations set target (over s) (in_front front flat)) 0) ≡ false →
        is_well (slice_get (equations set target (passive_scope p i values) blocks) 0) ≡ false }
{
    bg_terms::laws::finished_leaves_give_models();
    denied_flat_blocks_fail()
}

/// Flat blocks stay so when terms come behind.
pub fn flat_blocks_stay()
    ensures types { (incs : List Ty) (ts us : List Term) (n : ℕ) (vs : List Term) (blocks flat : List PassiveBlock) →
        FlatBlocks (types_with incs ts) n vs blocks flat → FlatBlocks (types_with incs (ts ++ us)) n vs blocks flat }
    ensures terms { (tys : List Ty) (n : ℕ) (ts us : List Term) (blocks flat : List PassiveBlock) →
        FlatBlocks tys n ts blocks flat → FlatBlocks tys n (ts ++ us) blocks flat }
{
    bg_terms::laws::terms_may_come_behind()
}
