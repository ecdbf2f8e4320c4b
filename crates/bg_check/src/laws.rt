//! Laws of verdicts, which are proved of the definitions alone.
ghost use Rattle.std.specs.Prelude.{◌≡◌, ◌⊎◌, ℕ, Bool, true, List, [], ◌∷◌, ◌++◌, Some, map, slice_get};
ghost use Rattle.bg_base.specs.declared.exact.OutOfRange.{OutOfRange};
ghost use Rattle.bg_ast.specs.Resolved.{Program, Impl, Proc};
ghost use Rattle.bg_ast.specs.Meaning.{meaning_of};
ghost use Rattle.bg_ast.specs.Values.{Val, Table};
ghost use Rattle.bg_ast.specs.Execution.{Choice, Place};
ghost use Rattle.bg_sense.specs.Typed.{IsTyped};
ghost use Rattle.bg_sense.specs.Tables.{are_tables};
ghost use Rattle.bg_sense.specs.Claims.{IsState, Inductive};
ghost use Rattle.bg_sense.specs.Flow.{BadChoice, Failed};
ghost use Rattle.bg_cert.specs.Walks.{has};
ghost use Rattle.bg_fits.specs.Valued.{is_over_values};
ghost use Rattle.bg_blocks.specs.Whole.{AreBlocks};
ghost use Rattle.bg_blocks.specs.declared.block.Block.{Block};
ghost use Rattle.bg_replay.specs.Said.{Stops, Leaves};
ghost use Rattle.bg_replay.specs.Views.{said_by};
ghost use Rattle.bg_replay.specs.Endings.{Tells, IsReplay};
ghost use Rattle.bg_replay.specs.declared.ending.Ending.{Ending};
ghost use Rattle.bg_scalar.specs.Views.{tables_in, vals_in};
ghost use Rattle.bg_scalar.specs.Choices.{choice_of, state_of};
ghost use Rattle.bg_scalar.specs.declared.choice.Choice as replayed;
ghost use Rattle.bg_model.specs.declared.failure.Counterexample.{Counterexample};
ghost use Rattle.bg_tree.specs.declared.outcome.Budget.{Budget};
ghost use Rattle.bg_check.specs.declared.verdict.Judged.{Judged};
ghost use Rattle.bg_check.specs.declared.verdict.Verdict.TheVariants.{Refuted};
ghost use Rattle.bg_sound.specs.Told.{Why};
ghost use Rattle.bg_sound.specs.Sound.{AreTrueFrom};
ghost use Rattle.bg_check.specs.declared.verdict.Cause.{Cause};
ghost use Rattle.bg_check.specs.Outcomes.{told};
ghost use Rattle.bg_check.specs.Replays.{RunsTo};
ghost use Rattle.bg_check.specs.Verdicts.{IsFailure, IsRight, AreRightUnder, ProvedAreSafe};

use bg_block_types::laws::blocks_are_typed;
use bg_cert::laws::{accepted_has_no_valuation, accepted_where_used};
use bg_clause::laws::atoms_of_clauses;
use bg_passive::equations::equations_deny_failing_walks;
use bg_passive::laws::{arrivals_fit, passive_blocks_fail_alike};
use bg_places::laws::placed_are_places;
use bg_replay::laws::replays_are_induction_runs;
use bg_sense::laws::{typed_programs_have_typed_bodies, what_fails_at_no_place_is_safe};
use bg_task::laws::proved_places_do_not_fail;
use bg_termed::laws::{
    denied_passive_blocks_have_lined_valuations, passive_blocks_have_terms,
    programs_over_values_are_tabled,
};

/// An implementation of a typed program over values is safe under an inductive set of candidates where each of its
/// ordinary places is proved under it: no execution of it fails, of any number of steps.
pub fn proved_under_a_set_is_safe()
    ensures { (p : Program) (set : ℕ → Bool) (budget : Budget) (outcome : List (List Judged)) → IsTyped (meaning_of p) → is_over_values (meaning_of p) ≡ true → Inductive (meaning_of p) set → AreRightUnder set budget p outcome → ProvedAreSafe p set 0 outcome }
{
    typed_programs_have_typed_bodies();
    what_fails_at_no_place_is_safe();
    placed_are_places();
    passive_blocks_fail_alike();
    arrivals_fit();
    equations_deny_failing_walks();
    programs_over_values_are_tabled();
    passive_blocks_have_terms();
    denied_passive_blocks_have_lined_valuations();
    accepted_has_no_valuation();
    accepted_where_used();
    atoms_of_clauses()
}

/// A replay of the blocks of an implementation of a typed program over values, from a state of the
/// implementation and with a table of its type for each function, tells how the run ends: with an answer, or at an operation that leaves
/// 128 bits.
pub fn replays_over_values_tell()
    ensures { (p : Program) (set : List Bool) (k : ℕ) (m : Impl) (q : Proc) (bs : List Block) (ts : List Table) (gs fs : List Val) (cs : List Choice) (ending : Ending) →
        IsTyped (meaning_of p) → is_over_values (meaning_of p) ≡ true →
        slice_get p.implementations k ≡ Some m → slice_get p.procedures m.procedure ≡ Some q → AreBlocks p k m q bs →
        are_tables (meaning_of p).functions ts ≡ true → IsState (meaning_of p) k (state_of gs fs) → IsReplay p bs set k m q ts gs fs cs ending → Tells (said_by ending) }
{
    blocks_are_typed()
}

/// The replay of a run that fails at a place ends there, or at an operation that leaves 128 bits.
pub fn failures_replay_or_leave()
    ensures { (p : Program) (set : List Bool) (t : Place) (cex : Counterexample) (m : Impl) (q : Proc) (bs : List Block) (ending : Ending) →
        IsTyped (meaning_of p) → is_over_values (meaning_of p) ≡ true →
        slice_get p.implementations t.implementation ≡ Some m → slice_get p.procedures m.procedure ≡ Some q → AreBlocks p t.implementation m q bs →
        IsFailure (meaning_of p) (has set) t cex →
        IsReplay p bs set t.implementation m q (tables_in cex.tables.items) (vals_in cex.globals.items) (vals_in cex.frame.items) (map choice_of cex.choices.items) ending →
        (said_by ending ≡ Stops (Failed t.spot)) ⊎ ((o : OutOfRange) × (said_by ending ≡ Leaves o)) }
{
    blocks_are_typed();
    replays_are_induction_runs()
}

/// The replay of a refuted place's counterexample fails at the place.
pub fn refuted_places_replay()
    ensures { (p : Program) (set : List Bool) (budget : Budget) (t : Place) (cex : Counterexample) (m : Impl) (q : Proc) (bs : List Block) (ending : Ending) →
        slice_get p.implementations t.implementation ≡ Some m → slice_get p.procedures m.procedure ≡ Some q → AreBlocks p t.implementation m q bs →
        IsRight budget (meaning_of p) (has set) t (Refuted cex) →
        IsReplay p bs set t.implementation m q (tables_in cex.tables.items) (vals_in cex.globals.items) (vals_in cex.frame.items) (map choice_of cex.choices.items) ending → said_by ending ≡ Stops (Failed t.spot) }
{}

/// The replay of a counterexample without its last choice lacks a choice, or fails at the place.
pub fn shorter_replays_lack_a_choice_or_fail()
    ensures { (p : Program) (set : List Bool) (t : Place) (cex : Counterexample) (m : Impl) (q : Proc) (bs : List Block) (front : List replayed.Choice) (last : replayed.Choice) (ending : Ending) →
        slice_get p.implementations t.implementation ≡ Some m → slice_get p.procedures m.procedure ≡ Some q → AreBlocks p t.implementation m q bs →
        cex.choices.items ≡ front ++ (last ∷ []) → RunsTo (meaning_of p) (has set) t cex (Stops (Failed t.spot)) →
        IsReplay p bs set t.implementation m q (tables_in cex.tables.items) (vals_in cex.globals.items) (vals_in cex.frame.items) (map choice_of front) ending →
        (said_by ending ≡ Stops BadChoice) ⊎ (said_by ending ≡ Stops (Failed t.spot)) }
{}

/// What a report tells of right verdicts under an inductive set of candidates is true, of a typed program over values,
/// whatever words it has for causes.
pub fn right_verdicts_are_true()
    ensures { (p : Program) (set : ℕ → Bool) (budget : Budget) (outcome : List (List Judged)) (words : ℕ → Cause → Why) → IsTyped (meaning_of p) → is_over_values (meaning_of p) ≡ true →
        Inductive (meaning_of p) set → AreRightUnder set budget p outcome → AreTrueFrom p set 0 p.implementations (map (told words) outcome) }
{
    proved_places_do_not_fail();
    proved_under_a_set_is_safe();
    accepted_where_used()
}
