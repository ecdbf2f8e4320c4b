//! Laws of blocks, which are proved of the definitions alone.
ghost use Rattle.std.specs.Prelude.{◌≡◌, ℕ, Bool, List, Some, slice_get};
ghost use Rattle.bg_ast.specs.Syntax.{Prog, Impl, Proc};
ghost use Rattle.bg_ast.specs.Execution.{Interp, State, Choice};
ghost use Rattle.bg_sense.specs.Context.{Cut, Ctx};
ghost use Rattle.bg_sense.specs.Flow.{World};
ghost use Rattle.bg_sense.specs.Variables.{procedure_of};
ghost use Rattle.bg_sense.specs.Run.{context, start, induction_run};
ghost use Rattle.bg_flow.specs.Core.{Routine, routine_of};
ghost use Rattle.bg_flow.specs.Looped.{LoopBlock, loops_run, flow_of, cut};
ghost use Rattle.bg_flow.specs.Blocks.{blocks_of, blocks_run};

/// An implementation and the blocks of the same without calls have the same induction runs, in which a loop is its head and the end
/// of a turn.
pub fn loops_run_alike()
    ensures { (p : Prog) (set : ℕ → Bool) (i : Interp) (k : ℕ) (m : Impl) (q : Proc) (s : State) (choices : List Choice) →
        slice_get p.implementations k ≡ Some m → procedure_of p m.procedure ≡ Some q →
        loops_run (context Cut p set i k m q s) (flow_of (routine_of p k m q)) (start s choices 0) ≡ induction_run p set i k s choices }
{}

/// Cutting the loops of blocks changes no run.
pub fn cut_blocks_run_alike()
    ensures { (c : Ctx) (blocks : List LoopBlock) (w : World) → blocks_run c (cut blocks) w ≡ loops_run c blocks w }
{}

/// The blocks that are cut are those that `blocks_of` names.
pub fn cut_gives_blocks()
    ensures { (r : Routine) → cut (flow_of r) ≡ blocks_of r }
{}

/// An implementation and the blocks of the same without calls, in which loops are cut, have the same induction runs.
pub fn blocks_run_alike()
    ensures { (p : Prog) (set : ℕ → Bool) (i : Interp) (k : ℕ) (m : Impl) (q : Proc) (s : State) (choices : List Choice) →
        slice_get p.implementations k ≡ Some m → procedure_of p m.procedure ≡ Some q →
        blocks_run (context Cut p set i k m q s) (blocks_of (routine_of p k m q)) (start s choices 0) ≡ induction_run p set i k s choices }
{}
