//! Laws of equations, which are proved of the definitions alone.
ghost use Rattle.std.specs.Prelude.{◌≡◌, ◌↔◌, ℕ, Bool, true, false, List, Some, slice_get, Contains};
ghost use Rattle.bg_ast.specs.Syntax.{Prog, Impl, Proc};
ghost use Rattle.bg_ast.specs.Values.{Val, Ty};
ghost use Rattle.bg_ast.specs.Execution.{Interp, State, Choice, Spot, Place};
ghost use Rattle.bg_sense.specs.Eval.{Scope};
ghost use Rattle.bg_sense.specs.Context.{Turning};
ghost use Rattle.bg_sense.specs.Flow.{Failed};
ghost use Rattle.bg_sense.specs.Variables.{procedure_of};
ghost use Rattle.bg_sense.specs.Run.{context, start, induction_run};
ghost use Rattle.bg_sense.specs.Clauses.{is_kept};
ghost use Rattle.bg_sense.specs.Typing.{AreTypedBodies, IsTypedSt};
ghost use Rattle.bg_sense.specs.Interps.{IsInterp, Meets};
ghost use Rattle.bg_sense.specs.Places.{places};
ghost use Rattle.bg_sense.specs.Claims.{Safe, IsState, EachAt};
ghost use Rattle.bg_flow.specs.Core.{frame_decls, routine_of, still};
ghost use Rattle.bg_flow.specs.Blocks.{blocks_of};
ghost use Rattle.bg_passive.specs.Passive.{PassiveBlock, SomeWalk};
ghost use Rattle.bg_passive.specs.Incarnations.{Arrival, passives, MakesPassive, passive_scope, ValuesFrom};
ghost use Rattle.bg_passive.specs.Arrivals.{arrived};
ghost use Rattle.bg_passive.specs.Equations.{is_well, equations};

/// The equations deny a block exactly where some walk from it fails at the target.
pub fn equations_deny_failing_walks()
    ensures { (set : ℕ → Bool) (target : Spot) (values : Scope) (blocks : List PassiveBlock) (k : ℕ) →
        is_well (slice_get (equations set target values blocks) k) ≡ false ↔ SomeWalk set target values blocks k }
{}

/// The equations of a target are made without a set of candidates, which are truth values in them. A run under a set that has
/// the target's candidate, if any, fails there exactly where the equations deny the entry under some values of the incarnations
/// and some truth values that make each member of the set true.
pub fn equations_fail_alike()
    ensures { (p : Prog) (set : ℕ → Bool) (i : Interp) (k : ℕ) (m : Impl) (q : Proc) (s : State) (spot : Spot) (others : List Ty) (arrivals : List Arrival) →
        slice_get p.implementations k ≡ Some m → procedure_of p m.procedure ≡ Some q →
        AreTypedBodies p → IsTypedSt (context Turning p set i k m q s) m.body → IsInterp p i → IsState p k s →
        EachAt spot set (places p) →
        MakesPassive p (frame_decls m q) others arrivals (blocks_of (routine_of p k m q)) →
        ((choices : List Choice) × (induction_run p set i k s choices ≡ Failed spot))
        ↔ ((values : List Val) × (ValuesFrom p (frame_decls m q) others s values
        × ((truths : ℕ → Bool) × (((b : ℕ) → set b ≡ true → truths b ≡ true)
        × (is_well (slice_get (equations truths spot (passive_scope p i values) (passives arrivals (blocks_of (routine_of p k m q)))) 0) ≡ false))))) }
{}

/// A typed implementation is safe under a set where the equations of none of its places deny the entry, under no interpretation,
/// no typed values of the incarnations, and no truth values that make each member of the set true.
pub fn what_no_equations_deny_is_safe()
    ensures { (p : Prog) (set : ℕ → Bool) (k : ℕ) (m : Impl) (q : Proc) →
        slice_get p.implementations k ≡ Some m → procedure_of p m.procedure ≡ Some q →
        AreTypedBodies p → IsTypedSt (still p (frame_decls m q)) m.body →
        ((t : Place) (i : Interp) (s : State) (values : List Val) (truths : ℕ → Bool) →
        Contains (places p) t → t.implementation ≡ k → is_kept set t.candidate ≡ true → Meets p i → IsState p k s →
        ValuesFrom p (frame_decls m q) (arrived p (frame_decls m q) (blocks_of (routine_of p k m q))).made s values →
        ((b : ℕ) → set b ≡ true → truths b ≡ true) →
        is_well (slice_get (equations truths t.spot (passive_scope p i values) (passives (arrived p (frame_decls m q) (blocks_of (routine_of p k m q))).arrivals (blocks_of (routine_of p k m q)))) 0) ≡ false → ⊥) →
        Safe p set k }
{}
