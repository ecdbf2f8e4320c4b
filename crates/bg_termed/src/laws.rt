//! Laws of an implementation's blocks in terms.
ghost use Rattle.std.specs.Prelude.{◌≡◌, ℕ, ℤ, ◌<◌, Bool, true, false, List, [], map, take, Some, Ok, slice_get};
ghost use Rattle.bg_ast.specs.Values.{Val};
ghost use Rattle.bg_ast.specs.Syntax.{Prog, Impl, Proc};
ghost use Rattle.bg_ast.specs.Execution.{Interp, Spot};
ghost use Rattle.bg_sense.specs.Eval.{value_at};
ghost use Rattle.bg_sense.specs.Interps.{IsInterp};
ghost use Rattle.bg_sense.specs.Types.{are_of};
ghost use Rattle.bg_sense.specs.Typed.{IsTyped};
ghost use Rattle.bg_sense.specs.Variables.{procedure_of};
ghost use Rattle.bg_passive.specs.Incarnations.{passive_scope};
ghost use Rattle.bg_passive.specs.Equations.{is_well, equations};
ghost use Rattle.bg_fits.specs.Valued.{is_over_values};
ghost use Rattle.bg_block_types.specs.Typed.{incarnations_in, passives_in};
ghost use Rattle.bg_formula.specs.Formulas.{Formula};
ghost use Rattle.bg_formula.specs.Meaning.{Valuation, clauses_true};
ghost use Rattle.bg_forms.specs.Worth.{bools_at};
ghost use Rattle.bg_clause.specs.Tables.{there_in};
ghost use Rattle.bg_clause.specs.Whole.{clauses_of};
ghost use Rattle.bg_linear.specs.Sorts.{scalar_values};
ghost use Rattle.bg_atoms.specs.Ranks.{rank};
ghost use Rattle.bg_atoms.specs.Sorted.{blocks_sorted};
ghost use Rattle.bg_faithful.specs.Encoded.{Encoding};
ghost use Rattle.bg_terms.specs.Terms.{IsModel, over};
ghost use Rattle.bg_terms.specs.Alike.{StandFor, scalar_ty};
ghost use Rattle.bg_terms.specs.Closed.{IsFinished};
ghost use Rattle.bg_terms.specs.Flat.{HaveNoBodies};
ghost use Rattle.bg_numbered.specs.Indexed.{are_indexed, GiveIndexed};
ghost use Rattle.bg_numbered.specs.Lines.{Line};
ghost use Rattle.bg_terms.specs.Tables.{IsReadOff};
ghost use Rattle.bg_flatten.specs.Flattens.{AreFlattened};
ghost use Rattle.bg_flat.specs.Blocks.{FlatBlocks};
ghost use Rattle.bg_flatten.specs.Plain.{are_mapless, PlainBlocks};
ghost use Rattle.bg_read_off.specs.Leaves.{AreCongruent, silent};
ghost use Rattle.bg_flat_clauses.specs.Linear.{LinearBlocks};
ghost use Rattle.bg_termed.specs.Termed.{IsTabled, count_in, terms_in, flats_in};
ghost use Rattle.bg_termed.specs.Lined.{HasFlats, IsLinedEncoding, lined_behind, lined_built, lined_sorts, lined_terms, lined_types};

use bg_block_types::laws::passive_blocks_are_typed;
use bg_flat::laws::{
    denied_blocks_have_scalars, finished_leaves_fail, flat_blocks_stay, instances_are_linear_truths,
};
use bg_flat_clauses::laws::{flat_blocks_are_sorted, flat_clauses_fail_alike};
use bg_flatten::laws::{
    blocks_without_functions_are_plain, flattened_blocks_stay, numbered_blocks_are_flattened,
    plain_blocks_stay, terms_are_ordinary, typed_blocks_are_fine,
};
use bg_read_off::laws::{finished_leaves_are_models, finished_leaves_stand};

/// A typed program over values has no constants, and its functions have tables alone.
pub fn programs_over_values_are_tabled()
    ensures { (p : Prog) → IsTyped p → is_over_values p ≡ true → IsTabled p }
{}

/// Each map that its functions give has an index, each among the incarnations of its implementations, and each among the terms behind lines.
pub fn types_over_values_are_indexed()
    ensures functions { (p : Prog) → IsTyped p → is_over_values p ≡ true → GiveIndexed p.functions }
    ensures incarnations { (p : Prog) (k : ℕ) (m : Impl) (q : Proc) → IsTyped p → is_over_values p ≡ true → slice_get p.implementations k ≡ Some m →
        procedure_of p m.procedure ≡ Some q → are_indexed (incarnations_in p k m q) ≡ true }
    ensures lined { (p : Prog) (k : ℕ) (m : Impl) (q : Proc) → IsTyped p → is_over_values p ≡ true → slice_get p.implementations k ≡ Some m →
        procedure_of p m.procedure ≡ Some q → (ls : List Line) → are_indexed (lined_types p k m q ls) ≡ true }
{
    passive_blocks_have_terms();
    blocks_behind_lines_stay_flat()
}

/// The passive blocks of its implementations are made flat over fair terms.
pub fn passive_blocks_have_terms()
    ensures { (p : Prog) (k : ℕ) (m : Impl) (q : Proc) → IsTyped p → is_over_values p ≡ true → slice_get p.implementations k ≡ Some m →
        procedure_of p m.procedure ≡ Some q → HasFlats p k m q }
{
    passive_blocks_are_typed();
    programs_over_values_are_tabled();
    typed_blocks_are_fine();
    numbered_blocks_are_flattened()
}

/// They are linear, and name candidates that are there.
pub fn passive_blocks_are_linear()
    ensures { (p : Prog) (k : ℕ) (m : Impl) (q : Proc) → IsTyped p → is_over_values p ≡ true → slice_get p.implementations k ≡ Some m →
        procedure_of p m.procedure ≡ Some q → LinearBlocks p.candidates (passives_in p k m q) }
{
    passive_blocks_are_typed()
}

/// Without functions, and without maps among the incarnations, there are no terms, and passive blocks are flat as they are.
pub fn implementations_without_functions_stay()
    ensures plain { (p : Prog) (k : ℕ) (m : Impl) (q : Proc) → IsTabled p → p.functions ≡ [] → slice_get p.implementations k ≡ Some m →
        procedure_of p m.procedure ≡ Some q → are_mapless (incarnations_in p k m q) ≡ true → PlainBlocks (passives_in p k m q) }
    ensures terms { (p : Prog) (k : ℕ) (m : Impl) (q : Proc) → IsTabled p → p.functions ≡ [] → slice_get p.implementations k ≡ Some m →
        procedure_of p m.procedure ≡ Some q → are_mapless (incarnations_in p k m q) ≡ true → terms_in p k m q ≡ [] }
    ensures flat { (p : Prog) (k : ℕ) (m : Impl) (q : Proc) → IsTabled p → p.functions ≡ [] → slice_get p.implementations k ≡ Some m →
        procedure_of p m.procedure ≡ Some q → are_mapless (incarnations_in p k m q) ≡ true → flats_in p k m q ≡ passives_in p k m q }
{
    passive_blocks_are_typed();
    blocks_without_functions_are_plain();
    plain_blocks_stay()
}

/// Behind any lines passive blocks stay made flat, over fair terms of which each map that is selected from or updated has an index; and over
/// the implementation's own terms they do, where incarnations and all terms have their types.
pub fn blocks_behind_lines_stay_flat()
    ensures lined { (p : Prog) (k : ℕ) (m : Impl) (q : Proc) → HasFlats p k m q → (ls : List Line) →
        AreFlattened p.functions (incarnations_in p k m q) (passives_in p k m q) (lined_terms p k m q ls) (flats_in p k m q) }
    ensures own { (p : Prog) (k : ℕ) (m : Impl) (q : Proc) → HasFlats p k m q → (ls : List Line) →
        FlatBlocks (lined_types p k m q ls) (count_in p k m q) (terms_in p k m q) (passives_in p k m q) (flats_in p k m q) }
{
    bg_numbered::laws::lines_bring_fair_terms();
    flat_blocks_stay();
    flattened_blocks_stay()
}

/// Any numbers and truth values are of the types of what stands for the values of incarnations and of terms behind lines; the values that are
/// built for them are typed, and the first of them are of the incarnations' types.
pub fn built_values_are_typed()
    ensures scalars { (p : Prog) (k : ℕ) (m : Impl) (q : Proc) (ls : List Line) (numbers : ℕ → ℤ) (truths : ℕ → Bool) →
        are_of (map scalar_ty (lined_types p k m q ls)) (scalar_values numbers truths (lined_sorts p k m q ls)) ≡ true }
    ensures all { (p : Prog) (k : ℕ) (m : Impl) (q : Proc) (ls : List Line) (numbers : ℕ → ℤ) (truths : ℕ → Bool) →
        are_of (lined_types p k m q ls) (lined_built p k m q ls (scalar_values numbers truths (lined_sorts p k m q ls))) ≡ true }
    ensures first { (p : Prog) (k : ℕ) (m : Impl) (q : Proc) (ls : List Line) (numbers : ℕ → ℤ) (truths : ℕ → Bool) →
        are_of (incarnations_in p k m q) (take (count_in p k m q) (lined_built p k m q ls (scalar_values numbers truths (lined_sorts p k m q ls)))) ≡ true }
{}

/// Where a leaf is finished, its scalars stand for the values that are built for them; no congruence is false of these; and the
/// implementation's own terms are worth what an interpretation makes of them that is read off these values.
pub fn built_values_are_models()
    ensures stand { (p : Prog) (k : ℕ) (m : Impl) (q : Proc) → HasFlats p k m q → (ls : List Line) (s : List Val) →
        are_of (map scalar_ty (lined_types p k m q ls)) s ≡ true → IsFinished s (count_in p k m q) (lined_terms p k m q ls) (lined_types p k m q ls) →
        StandFor (lined_types p k m q ls) (lined_built p k m q ls s) s }
    ensures congruent { (p : Prog) (k : ℕ) (m : Impl) (q : Proc) → HasFlats p k m q → (ls : List Line) (s : List Val) →
        are_of (map scalar_ty (lined_types p k m q ls)) s ≡ true → IsFinished s (count_in p k m q) (lined_terms p k m q ls) (lined_types p k m q ls) →
        AreCongruent (lined_built p k m q ls s) (count_in p k m q) (lined_terms p k m q ls) }
    ensures models { (p : Prog) (k : ℕ) (m : Impl) (q : Proc) → HasFlats p k m q → (ls : List Line) (s : List Val) →
        are_of (map scalar_ty (lined_types p k m q ls)) s ≡ true → IsFinished s (count_in p k m q) (lined_terms p k m q ls) (lined_types p k m q ls) →
        (i : Interp) → IsReadOff i (silent p.functions) (lined_built p k m q ls s) (count_in p k m q) (lined_terms p k m q ls) →
        IsModel i (lined_built p k m q ls s) (count_in p k m q) (terms_in p k m q) }
{
    bg_numbered::laws::lines_bring_fair_terms();
    blocks_behind_lines_stay_flat();
    terms_are_ordinary();
    finished_leaves_stand();
    finished_leaves_are_models()
}

/// Behind any lines flat blocks are sorted, where the passive blocks are linear and name candidates that are there.
pub fn blocks_behind_lines_are_sorted()
    ensures { (p : Prog) (k : ℕ) (m : Impl) (q : Proc) → HasFlats p k m q → LinearBlocks p.candidates (passives_in p k m q) →
        (ls : List Line) → blocks_sorted (lined_sorts p k m q ls) p.candidates (lined_behind p k m q ls) ≡ true }
{
    flattened_blocks_stay();
    instances_are_linear_truths();
    flat_blocks_are_sorted()
}

/// Where the equations deny the entry of the passive blocks under an interpretation, typed values of the incarnations and truth values of the
/// candidates, there is a valuation that agrees with the candidates and makes the clauses true of each encoding of the flat blocks behind any
/// lines.
pub fn denied_passive_blocks_have_lined_valuations()
    ensures { (p : Prog) (k : ℕ) (m : Impl) (q : Proc) → HaveNoBodies p.functions → HasFlats p k m q →
        (ls : List Line) (a : Encoding) → IsLinedEncoding p k m q ls a →
        (target : Spot) (f : Formula) → clauses_of a.first a.named a.terms a.rows target a.blocks ≡ Ok f →
        (i : Interp) (values : List Val) (set : ℕ → Bool) → IsInterp p i → are_of (incarnations_in p k m q) values ≡ true →
        is_well (slice_get (equations set target (passive_scope p i values) (passives_in p k m q)) 0) ≡ false →
        (v : Valuation) × (((b : ℕ) → bools_at a.named b ≡ true → there_in f.candidates v.truths b ≡ set b) × (clauses_true v f.atoms f.clauses ≡ true)) }
{
    flattened_blocks_stay();
    denied_blocks_have_scalars();
    flat_clauses_fail_alike()
}

/// Where a valuation makes such clauses true, and the leaf of its numbers and truth values is finished, the equations deny the entry under
/// the interpretation that is read off the values that are built for them, those values of the incarnations, and the candidates whose
/// atoms it makes true.
pub fn lined_valuations_deny_passive_blocks()
    ensures { (p : Prog) (k : ℕ) (m : Impl) (q : Proc) → HaveNoBodies p.functions → HasFlats p k m q →
        (ls : List Line) (a : Encoding) → IsLinedEncoding p k m q ls a →
        (target : Spot) (f : Formula) → clauses_of a.first a.named a.terms a.rows target a.blocks ≡ Ok f →
        (v : Valuation) → clauses_true v f.atoms f.clauses ≡ true →
        (s : List Val) → s ≡ scalar_values v.numbers (λ j. v.truths (rank (lined_sorts p k m q ls) j)) (lined_sorts p k m q ls) →
        IsFinished s (count_in p k m q) (lined_terms p k m q ls) (lined_types p k m q ls) →
        (i : Interp) → IsReadOff i (silent p.functions) (lined_built p k m q ls s) (count_in p k m q) (lined_terms p k m q ls) →
        (values : List Val) → ((j : ℕ) → j < count_in p k m q → value_at (lined_built p k m q ls s) j ≡ value_at values j) →
        is_well (slice_get (equations (there_in f.candidates v.truths) target (passive_scope p i values) (passives_in p k m q)) 0) ≡ false }
{
    bg_numbered::laws::lines_bring_fair_terms();
    flat_blocks_stay();
    flattened_blocks_stay();
    terms_are_ordinary();
    flat_clauses_fail_alike();
    finished_leaves_fail()
}
