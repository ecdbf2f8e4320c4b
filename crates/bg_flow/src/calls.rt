//! Laws of bodies without calls, which are proved of the definitions alone.
ghost use Rattle.std.specs.Prelude.{◌≡◌, ℕ, Bool, List, Some, slice_get};
ghost use Rattle.bg_ast.specs.Syntax.{Prog, Impl, Proc};
ghost use Rattle.bg_ast.specs.Execution.{Interp, State, Choice};
ghost use Rattle.bg_sense.specs.Context.{Cut};
ghost use Rattle.bg_sense.specs.Variables.{procedure_of};
ghost use Rattle.bg_sense.specs.Run.{context, start, induction_run};
ghost use Rattle.bg_flow.specs.Core.{routine_of, routine_run};

/// An implementation and the same without calls have the same induction runs: the same answer for the same choices.
pub fn calls_may_be_removed()
    ensures { (p : Prog) (set : ℕ → Bool) (i : Interp) (k : ℕ) (m : Impl) (q : Proc) (s : State) (choices : List Choice) →
        slice_get p.implementations k ≡ Some m → procedure_of p m.procedure ≡ Some q →
        routine_run (context Cut p set i k m q s) (routine_of p k m q) (start s choices 0) ≡ induction_run p set i k s choices }
{}
