// Laws of functions and expressions.

ghost use Rattle.std.specs.Prelude.{◌≡◌, ℕ, List, [], Some, None, slice_get, IsTrue, All};
ghost use Rattle.bg_ast.specs.Values.{Val, Ty, is_of, Table};
ghost use Rattle.bg_ast.specs.Syntax.{Ex, Decl, Fun, Prog};
ghost use Rattle.bg_ast.specs.Execution.{Interp};
ghost use Rattle.bg_sense.specs.Eval.{ev, look_up, functions_of};
ghost use Rattle.bg_sense.specs.Claims.{are_of, types_of, IsInterp, is_table};
ghost use Rattle.bg_sense.specs.Typing.{AreTypedBodies, HasType, sig_in};
ghost use Rattle.bg_sense.specs.Recursion.{HasNoRecursion};

/// A function with a body means its body, where no body reaches its own function; a function without one means its table.
pub fn functions_mean_their_bodies()
    ensures body { (p : Prog) (i : Interp) (f : ℕ) (fn : Fun) (e : Ex) (args : List Val) →
        HasNoRecursion p → slice_get p.functions f ≡ Some fn → fn.body ≡ Some e →
        functions_of p i f args
        ≡ ev e (record { functions = functions_of p i; constants = i.constants; globals = []; before = []; frame = args }) }
    ensures table { (p : Prog) (i : Interp) (f : ℕ) (fn : Fun) (args : List Val) →
        slice_get p.functions f ≡ Some fn → fn.body ≡ None → functions_of p i f args ≡ look_up (slice_get i.tables f) args }
{}

/// A typed expression has a value of its type, where names mean values of their types.
pub fn typed_expressions_have_values_of_their_types()
    ensures { (p : Prog) (frame_of : List Decl) (i : Interp) (e : Ex) (t : Ty) (globals before frame : List Val) →
        AreTypedBodies p → IsInterp p i → IsTrue (are_of (types_of p.globals) globals) →
        IsTrue (are_of (types_of p.globals) before) → IsTrue (are_of (types_of frame_of) frame) →
        HasType e (sig_in p frame_of) t →
        IsTrue (is_of t (ev e (record { functions = functions_of p i; constants = i.constants; globals = globals; before = before; frame = frame }))) }
{}

/// Each typed table has a normal form, which gives the same values. So to ask for normal forms leaves no meaning of a function out.
pub fn tables_have_normal_forms()
    ensures { (f : Fun) (t : Table) → IsTrue (is_of f.result t.default) →
        All (λ e. IsTrue (are_of f.params e.0) × IsTrue (is_of f.result e.1)) t.entries →
        (u : Table) × (IsTrue (is_table f u) × ((args : List Val) → look_up (Some u) args ≡ look_up (Some t) args)) }
{}
