//! Laws of terms, which are proved of the definitions alone.
ghost use Rattle.std.specs.Prelude.{◌≡◌, ◌++◌, map, ℤ, ◌∷◌, ℕ, suc, ◌<◌, true, false, List, [], length, ◌+◌, Some, slice_get};
ghost use Rattle.bg_ast.specs.Values.{Val, Ty, BoolTy, MapTy, KeyType, truth_of, number_of, is_of, val_eq, select, update, takes_parts};
ghost use Rattle.bg_terms.specs.Built.{built, given, seen, agree_but};
ghost use Rattle.bg_ast.specs.Syntax.{Ex, Exs, Fun};
ghost use Rattle.bg_ast.specs.Execution.{Interp};
ghost use Rattle.bg_sense.specs.Eval.{value_at, ev, look_up, functions_to};
ghost use Rattle.bg_sense.specs.Typed.{IsLinear, AreLinear, HasNoOld};
ghost use Rattle.bg_sense.specs.Types.{are_of};
ghost use Rattle.bg_sense.specs.Typing.{HasType};
ghost use Rattle.bg_terms.specs.Typed.{TermsTyped, HeadHasType, types_with, sig_with};
ghost use Rattle.bg_terms.specs.Terms.{Term, Head, Selects, Updates, Fit, term_value, IsModel, over, extended, are_in_order};
ghost use Rattle.bg_terms.specs.Closed.{IsFinished, is_differs};
ghost use Rattle.bg_terms.specs.Tables.{IsReadOff, is_application, is_right, are_right};
ghost use Rattle.bg_terms.specs.Flat.{HaveNoBodies, IsFlat, AreFlat};
ghost use Rattle.bg_terms.specs.Alike.{StandFor, HasFlatType, is_scalar, scalar_ty};
ghost use Rattle.bg_terms.specs.Instances.{Instance, instance_ex, Congruent};

/// A flat expression is worth, over the values of incarnations and terms, what the expression is worth over those of the incarnations, where no
/// function has a body.
pub fn flat_expressions_say_the_same()
    ensures { (i : Interp) (n depth : ℕ) (fs : List Fun) (ts : List Term) (w values : List Val) (e x : Ex) →
        HaveNoBodies fs → IsModel i w n ts → ((j : ℕ) → j < n → value_at w j ≡ value_at values j) → IsFlat n ts e x →
        ev x (over w) ≡ ev e (record { functions = functions_to (suc depth) fs i; constants = i.constants; globals = []; before = []; frame = values }) }
{}

/// Where scalars stand for values, a flat expression of a scalar type is worth the same over both.
pub fn scalars_say_the_same()
    ensures { (tys : List Ty) (w scalars : List Val) (x : Ex) (t : Ty) → StandFor tys w scalars → HasFlatType tys x t → is_scalar t ≡ true →
        ev x (over scalars) ≡ ev x (over w) }
{}

/// Instances are true in each model in which arguments are of their heads' types, and each map that is selected from has an index.
pub fn instances_are_true()
    ensures congruent { (i : Interp) (n : ℕ) (ts : List Term) (w : List Val) (a b : ℕ) → IsModel i w n ts →
        truth_of (ev (instance_ex n ts (Congruent a b)) (over w)) ≡ true }
    ensures maps { (i : Interp) (n : ℕ) (ts : List Term) (w : List Val) (e : Instance) → IsModel i w n ts → Fit w ts →
        ((a : ℕ) (u : Term) (t : Ty) → slice_get ts a ≡ Some u → u.head ≡ Selects [] t → ⊥) →
        truth_of (ev (instance_ex n ts e) (over w)) ≡ true }
{}

/// Where the arguments of each term are over incarnations and earlier terms, the terms' values are a model, whatever the incarnations' values.
pub fn terms_have_values()
    ensures model { (i : Interp) (ts : List Term) (values : List Val) → are_in_order (length values) ts ≡ true →
        IsModel i (extended i ts values) (length values) ts }
    ensures begins { (i : Interp) (ts : List Term) (values : List Val) (j : ℕ) → j < length values →
        value_at (extended i ts values) j ≡ value_at values j }
{}

/// Where each term has the value that an interpretation gives it, the values are a model.
pub fn right_terms_are_a_model()
    ensures { (i : Interp) (n : ℕ) (ts : List Term) (w : List Val) → are_right i w n ts ≡ true → IsModel i w n ts }
{}

/// An application that doesn't have the value which is read off the terms names an instance that is false.
pub fn wrong_terms_name_false_instances()
    ensures { (i : Interp) (defaults : Head → Val) (n : ℕ) (ts : List Term) (w : List Val) (b : ℕ) (t : Term) → IsReadOff i defaults w n ts →
        slice_get ts b ≡ Some t → is_application t.head ≡ true → is_right i w (n + b) t ≡ false →
        (a : ℕ) × (truth_of (ev (instance_ex n ts (Congruent a b)) (over w)) ≡ false) }
{}

/// What is built for scalars is typed; a map gives at each index what the first select from it there says, and else its type's default;
/// and an update has the value that it means where its own map gives the new value at its index, and both maps agree at each other index
/// of a select from one of them.
pub fn maps_are_built()
    ensures typed { (s : List Val) (n : ℕ) (ts : List Term) (t : Ty) (v : Val) → is_of t (built s n ts t v) ≡ true }
    ensures gives { (s : List Val) (n : ℕ) (ts : List Term) (ks : List KeyType) (t : Ty) (v : Val) (q : List ℤ) →
        select (built s n ts (MapTy ks t) v) q ≡ given t (built s n ts t) (seen s ks t (number_of v) q n ts) }
    ensures updates { (s : List Val) (n : ℕ) (ts : List Term) (k : KeyType) (ks : List KeyType) (t : Ty) (u m v : Val) (q : List ℤ) →
        takes_parts (MapTy (k ∷ ks) t) (length q) ≡ true → is_of t v ≡ true →
        given t (built s n ts t) (seen s (k ∷ ks) t (number_of u) q n ts) ≡ v →
        agree_but s (k ∷ ks) t (built s n ts t) n ts (number_of u) (number_of m) q ts ≡ true →
        built s n ts (MapTy (k ∷ ks) t) u ≡ update (built s n ts (MapTy (k ∷ ks) t) m) q v }
{}

/// For typed values there are whole numbers and truth values that stand for them.
pub fn values_have_scalars()
    ensures { (tys : List Ty) (w : List Val) → are_of tys w ≡ true → (s : List Val) × ((are_of (map scalar_ty tys) s ≡ true) × StandFor tys w s) }
{}

/// Where terms are typed, a flat expression has the type of the expression.
pub fn flat_expressions_are_typed()
    ensures { (constants : List Ty) (functions : List Fun) (incs : List Ty) (ts : List Term) (e x : Ex) (t : Ty) →
        TermsTyped functions incs ts → HasType e (sig_with constants functions incs) t → IsFlat (length incs) ts e x →
        HasFlatType (types_with incs ts) x t }
{}

/// Over scalars a flat expression is one of a program without constants and functions: it has the type of what stands for its value,
/// holds no `old`, and each product in it has a constant side where that is so of the expression.
pub fn flat_expressions_are_over_scalars()
    ensures typed { (tys : List Ty) (x : Ex) (t : Ty) → HasFlatType tys x t → HasType x (sig_with [] [] (map scalar_ty tys)) (scalar_ty t) }
    ensures no_old { (tys : List Ty) (x : Ex) (t : Ty) → HasFlatType tys x t → HasNoOld x }
    ensures linear { (n : ℕ) (ts : List Term) (e x : Ex) → IsLinear e → IsFlat n ts e x → IsLinear x }
{}

/// In a model of typed terms under typed tables, whose incarnations have values of their types, each value is of its type, and arguments are of their heads' types.
pub fn models_are_typed()
    ensures values { (functions : List Fun) (i : Interp) (incs : List Ty) (ts : List Term) (w : List Val) →
        ((f : ℕ) (fn : Fun) (args : List Val) → slice_get functions f ≡ Some fn → is_of fn.result (look_up (slice_get i.tables f) args) ≡ true) →
        TermsTyped functions incs ts → are_in_order (length incs) ts ≡ true → IsModel i w (length incs) ts →
        ((j : ℕ) (t : Ty) → j < length incs → slice_get incs j ≡ Some t → is_of t (value_at w j) ≡ true) →
        (j : ℕ) (t : Ty) → slice_get (types_with incs ts) j ≡ Some t → is_of t (value_at w j) ≡ true }
    ensures arguments { (functions : List Fun) (i : Interp) (incs : List Ty) (ts : List Term) (w : List Val) →
        ((f : ℕ) (fn : Fun) (args : List Val) → slice_get functions f ≡ Some fn → is_of fn.result (look_up (slice_get i.tables f) args) ≡ true) →
        TermsTyped functions incs ts → are_in_order (length incs) ts ≡ true → IsModel i w (length incs) ts →
        ((j : ℕ) (t : Ty) → j < length incs → slice_get incs j ≡ Some t → is_of t (value_at w j) ≡ true) →
        Fit w ts }
{}

/// At a leaf where no instance of the terms is false, each update is closed and different numbers of maps are told apart, the scalars stand for the
/// values that are built for them; and each term but the parts of indices at which maps differ is worth what an interpretation makes of it
/// that is read off these values.
pub fn finished_leaves_give_models()
    ensures stand { (functions : List Fun) (incs : List Ty) (ts : List Term) (s w : List Val) →
        TermsTyped functions incs ts → ((j : ℕ) (t : Ty) → slice_get (types_with incs ts) j ≡ Some t → is_of (scalar_ty t) (value_at s j) ≡ true) →
        IsFinished s (length incs) ts (types_with incs ts) →
        ((j : ℕ) (t : Ty) → slice_get (types_with incs ts) j ≡ Some t → value_at w j ≡ built s (length incs) ts t (value_at s j)) →
        StandFor (types_with incs ts) w s }
    ensures right { (functions : List Fun) (incs : List Ty) (ts : List Term) (s w : List Val) (i : Interp) (defaults : Head → Val) →
        TermsTyped functions incs ts → ((j : ℕ) (t : Ty) → slice_get (types_with incs ts) j ≡ Some t → is_of (scalar_ty t) (value_at s j) ≡ true) →
        IsFinished s (length incs) ts (types_with incs ts) →
        ((j : ℕ) (t : Ty) → slice_get (types_with incs ts) j ≡ Some t → value_at w j ≡ built s (length incs) ts t (value_at s j)) →
        IsReadOff i defaults w (length incs) ts →
        (a : ℕ) (x : Term) → slice_get ts a ≡ Some x → is_differs x.head ≡ false → ((t : Ty) → x.head ≡ Updates [] t → ⊥) →
        value_at w (length incs + a) ≡ term_value i w x }
{}

/// What is flat, or typed, stays so when terms come behind.
pub fn terms_may_come_behind()
    ensures flat { (n : ℕ) (ts us : List Term) (e x : Ex) → IsFlat n ts e x → IsFlat n (ts ++ us) e x }
    ensures lists { (n : ℕ) (ts us : List Term) (es xs : Exs) → AreFlat n ts es xs → AreFlat n (ts ++ us) es xs }
    ensures typed { (incs : List Ty) (ts us : List Term) (x : Ex) (t : Ty) → HasFlatType (types_with incs ts) x t → HasFlatType (types_with incs (ts ++ us)) x t }
    ensures term { (functions : List Fun) (incs : List Ty) (ts us : List Term) (h : Head) (xs : Exs) (t : Ty) →
        HeadHasType functions (types_with incs ts) h xs t → HeadHasType functions (types_with incs (ts ++ us)) h xs t }
{}

/// Scalars stand for the values that are built for them where maps with different numbers are built different, whatever else is so of the leaf.
pub fn scalars_stand_for_what_is_built()
    ensures { (tys : List Ty) (s w : List Val) (n : ℕ) (ts : List Term) → ((j : ℕ) (t : Ty) → slice_get tys j ≡ Some t → is_of (scalar_ty t) (value_at s j) ≡ true) →
        ((j k : ℕ) (ks : List KeyType) (t : Ty) → slice_get tys j ≡ Some (MapTy ks t) → slice_get tys k ≡ Some (MapTy ks t) → val_eq (value_at s j) (value_at s k) ≡ false →
        val_eq (built s n ts (MapTy ks t) (value_at s j)) (built s n ts (MapTy ks t) (value_at s k)) ≡ false) →
        ((j : ℕ) (t : Ty) → slice_get tys j ≡ Some t → value_at w j ≡ built s n ts t (value_at s j)) → StandFor tys w s }
{}

/// Each instance of typed terms is a truth.
pub fn instances_are_typed()
    ensures { (functions : List Fun) (incs : List Ty) (ts : List Term) (e : Instance) → TermsTyped functions incs ts →
        HasFlatType (types_with incs ts) (instance_ex (length incs) ts e) BoolTy }
{}

/// Each product in an instance has a constant side where that is so of the terms' arguments.
pub fn instances_are_linear()
    ensures { (n : ℕ) (ts : List Term) (e : Instance) → ((a : ℕ) (t : Term) → slice_get ts a ≡ Some t → AreLinear t.args) → IsLinear (instance_ex n ts e) }
{}
