//! Laws of runs, which are proved of the definitions alone.
ghost use Rattle.std.specs.Prelude.{◌≡◌, ◌⊎◌, ◌++◌, ℕ, Bool, true, List, Some, None, map, slice_get};
ghost use Rattle.bg_base.specs.declared.exact.OutOfRange.{OutOfRange};
ghost use Rattle.bg_ast.specs.Values.{Val, Table};
ghost use Rattle.bg_ast.specs.Syntax.{Decl, Prog};
ghost use Rattle.bg_ast.specs.Resolved as r;
ghost use Rattle.bg_ast.specs.Meaning as mean;
ghost use Rattle.bg_ast.specs.Execution.{Choice, Interp};
ghost use Rattle.bg_sense.specs.Eval.{body_of};
ghost use Rattle.bg_sense.specs.Flow.{Answer, BadChoice};
ghost use Rattle.bg_sense.specs.Run.{induction_run};
ghost use Rattle.bg_replay.specs.Said.{Stops, Leaves};
ghost use Rattle.bg_flow.specs.Blocks as flow;
ghost use Rattle.bg_block_types.specs.TypedFlow.{CodeIsTyped};
ghost use Rattle.bg_blocks.specs.Whole.{AreBlocks};
ghost use Rattle.bg_blocks.specs.Views.{block_of};
ghost use Rattle.bg_blocks.specs.declared.block.Block.{Block};
ghost use Rattle.bg_scalar.specs.Choices.{state_of};
ghost use Rattle.bg_scalar.specs.Values.{scope_in, MeanTables};
ghost use Rattle.bg_replay.specs.Moments.{Moment, Around};
ghost use Rattle.bg_replay.specs.Ways.{runs};
ghost use Rattle.bg_replay.specs.Over.{over_blocks};
ghost use Rattle.bg_replay.specs.Endings.{IsRight, IsReplay, Tells, TypedMoment, TypedAround, around_in, moment_in};
ghost use Rattle.bg_replay.specs.Operations.{first_outside, of_run};
ghost use Rattle.bg_replay.specs.Views.{set_of, said_by};
ghost use Rattle.bg_replay.specs.declared.ending.Ending.{Ending};

/// A replay of the blocks that are made of an implementation of a program whose functions have no bodies ends as its induction run does
/// under the interpretation that has these tables, where it ends with an answer.
pub fn replays_are_induction_runs()
    ensures { (p : r.Program) (set : List Bool) (i : Interp) (number : ℕ) (m : r.Impl) (q : r.Proc) (bs : List Block) (ts : List Table) (gs fs : List Val) (cs : List Choice) (ending : Ending) →
        ((f : ℕ) → body_of (slice_get (mean.meaning_of p).functions f) ≡ None) → i.tables ≡ ts →
        slice_get p.implementations number ≡ Some m → slice_get p.procedures m.procedure ≡ Some q → AreBlocks p number m q bs → IsReplay p bs set number m q ts gs fs cs ending →
        IsRight ending (induction_run (mean.meaning_of p) (set_of set) i number (state_of gs fs) cs) }
{}

/// A run of typed blocks without constants, from values of the variables' types, meets nothing of another type than it should be: it
/// ends with an answer, or at an operation that leaves 128 bits.
pub fn typed_runs_tell()
    ensures { (p : Prog) (ds : List Decl) (a : Around) → TypedAround p ds a → (k : ℕ) (bs : List flow.Block) (m : Moment) → CodeIsTyped p ds bs → over_blocks bs ≡ true → TypedMoment p ds m → Tells (runs a k bs m) }
{}

/// A run that doesn't lack a choice is the same with more choices behind.
pub fn runs_with_more_choices_are_the_same()
    ensures { (extra : List Choice) (a : Around) (k : ℕ) (bs : List flow.Block) (m : Moment) → (runs a k bs m ≡ Stops BadChoice) ⊎ (runs a k bs (record m { choices = m.choices ++ extra }) ≡ runs a k bs m) }
{}

/// Where a replay meets an operation that leaves 128 bits, it is the first on the run that does: of the operations before it, over whole
/// numbers without bound and where functions mean the tables, each has a result within them. A replay that ends with an answer meets
/// none. And how a replay of the same blocks ends is determined by the tables, the values and the choices.
pub fn replays_leave_first()
    ensures first { (functions : ℕ → List Val → Val) (constants : List Val) (p : r.Program) (bs : List Block) (set : List Bool) (number : ℕ) (m : r.Impl) (q : r.Proc) (ts : List Table) (gs fs : List Val) (cs : List Choice) (ending : Ending) (o : OutOfRange) →
        MeanTables functions ts → IsReplay p bs set number m q ts gs fs cs ending → said_by ending ≡ Leaves o →
        first_outside (of_run (scope_in functions constants) (around_in p m q set ts gs) 0 (map (block_of p) bs) (moment_in gs fs cs)) ≡ Some o }
    ensures none { (functions : ℕ → List Val → Val) (constants : List Val) (p : r.Program) (bs : List Block) (set : List Bool) (number : ℕ) (m : r.Impl) (q : r.Proc) (ts : List Table) (gs fs : List Val) (cs : List Choice) (ending : Ending) (x : Answer) →
        MeanTables functions ts → IsReplay p bs set number m q ts gs fs cs ending → said_by ending ≡ Stops x →
        first_outside (of_run (scope_in functions constants) (around_in p m q set ts gs) 0 (map (block_of p) bs) (moment_in gs fs cs)) ≡ None }
    ensures same { (p : r.Program) (bs : List Block) (set : List Bool) (number other : ℕ) (m : r.Impl) (q : r.Proc) (ts : List Table) (gs fs : List Val) (cs : List Choice) (a b : Ending) →
        IsReplay p bs set number m q ts gs fs cs a → IsReplay p bs set other m q ts gs fs cs b → said_by a ≡ said_by b }
{}
