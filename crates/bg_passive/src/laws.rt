//! Laws of passive blocks, which are proved of the definitions alone.
ghost use Rattle.std.specs.Prelude.{◌≡◌, ◌↔◌, ℕ, Bool, true, false, List, Some, slice_get, Contains};
ghost use Rattle.bg_ast.specs.Syntax.{Prog, Impl, Proc};
ghost use Rattle.bg_ast.specs.Values.{Val, Ty};
ghost use Rattle.bg_ast.specs.Execution.{Interp, State, Choice, Spot, Place};
ghost use Rattle.bg_sense.specs.Eval.{Scope};
ghost use Rattle.bg_sense.specs.Context.{Turning};
ghost use Rattle.bg_sense.specs.Flow.{Failed};
ghost use Rattle.bg_sense.specs.Variables.{procedure_of};
ghost use Rattle.bg_sense.specs.Run.{context, start, induction_run};
ghost use Rattle.bg_sense.specs.Clauses.{is_kept};
ghost use Rattle.bg_sense.specs.Typing.{AreTypedBodies, IsTypedSt};
ghost use Rattle.bg_sense.specs.Interps.{IsInterp, Meets};
ghost use Rattle.bg_sense.specs.Places.{places};
ghost use Rattle.bg_sense.specs.Claims.{Safe, IsState, EachAt};
ghost use Rattle.bg_flow.specs.Core.{frame_decls, routine_of, still};
ghost use Rattle.bg_flow.specs.Blocks.{blocks_of};
ghost use Rattle.bg_passive.specs.Passive.{walk_at, walks, SomeWalk};
ghost use Rattle.bg_passive.specs.Incarnations.{Arrival, passives, MakesPassive, passive_scope, ValuesFrom, incarnations, ArrivalsTyped};
ghost use Rattle.bg_passive.specs.Arrivals.{arrived};
ghost use Rattle.bg_passive.specs.ReadBack.{choices_at, walk_choices};

/// An induction run of an implementation, from this state, fails at a check exactly where some walk through its passive blocks
/// fails there, under some typed values of the incarnations, the first of which are this state.
pub fn passive_blocks_fail_alike()
    ensures { (p : Prog) (set : ℕ → Bool) (i : Interp) (k : ℕ) (m : Impl) (q : Proc) (s : State) (spot : Spot) (others : List Ty) (arrivals : List Arrival) →
        slice_get p.implementations k ≡ Some m → procedure_of p m.procedure ≡ Some q →
        AreTypedBodies p → IsTypedSt (context Turning p set i k m q s) m.body → IsInterp p i → IsState p k s →
        MakesPassive p (frame_decls m q) others arrivals (blocks_of (routine_of p k m q)) →
        ((choices : List Choice) × (induction_run p set i k s choices ≡ Failed spot))
        ↔ ((values : List Val) × (ValuesFrom p (frame_decls m q) others s values
        × SomeWalk set spot (passive_scope p i values) (passives arrivals (blocks_of (routine_of p k m q))) 0)) }
{}

/// Along a walk that fails at a check, the choices that are read off the values of the incarnations make the induction run fail there.
pub fn choices_are_read_back()
    ensures { (p : Prog) (set : ℕ → Bool) (i : Interp) (k : ℕ) (m : Impl) (q : Proc) (s : State) (spot : Spot) (others : List Ty) (arrivals : List Arrival) →
        slice_get p.implementations k ≡ Some m → procedure_of p m.procedure ≡ Some q →
        MakesPassive p (frame_decls m q) others arrivals (blocks_of (routine_of p k m q)) →
        (values : List Val) → ValuesFrom p (frame_decls m q) others s values →
        (walk : List ℕ) → walk_at (slice_get (walks set spot (passive_scope p i values) (passives arrivals (blocks_of (routine_of p k m q)))) 0) walk ≡ true →
        induction_run p set i k s (choices_at (slice_get (walk_choices values arrivals (blocks_of (routine_of p k m q))) 0) walk) ≡ Failed spot }
{}

/// The arrivals that are computed make the blocks of a typed body passive.
pub fn arrivals_fit()
    ensures { (p : Prog) (set : ℕ → Bool) (i : Interp) (k : ℕ) (m : Impl) (q : Proc) (s : State) →
        IsTypedSt (context Turning p set i k m q s) m.body →
        MakesPassive p (frame_decls m q)
        (arrived p (frame_decls m q) (blocks_of (routine_of p k m q))).made
        (arrived p (frame_decls m q) (blocks_of (routine_of p k m q))).arrivals
        (blocks_of (routine_of p k m q)) }
{}

/// At each arrival that is computed each variable's incarnation has the variable's type.
pub fn arrivals_are_typed()
    ensures { (p : Prog) (set : ℕ → Bool) (i : Interp) (k : ℕ) (m : Impl) (q : Proc) (s : State) →
        IsTypedSt (context Turning p set i k m q s) m.body →
        ArrivalsTyped (incarnations p (frame_decls m q) (arrived p (frame_decls m q) (blocks_of (routine_of p k m q))).made) p (frame_decls m q)
        (arrived p (frame_decls m q) (blocks_of (routine_of p k m q))).arrivals }
{}
