//! Laws of the clauses of flat blocks.
ghost use Rattle.std.specs.Prelude.{◌≡◌, ℕ, Bool, true, false, List, map, Ok, slice_get};
ghost use Rattle.bg_ast.specs.Values.{Val, Ty, BoolTy};
ghost use Rattle.bg_ast.specs.Syntax.{Ex};
ghost use Rattle.bg_ast.specs.Execution.{Spot};
ghost use Rattle.bg_sense.specs.Types.{are_of};
ghost use Rattle.bg_sense.specs.Typed.{IsLinear};
ghost use Rattle.bg_passive.specs.Passive.{PassiveBlock};
ghost use Rattle.bg_passive.specs.Equations.{is_well, equations};
ghost use Rattle.bg_formula.specs.Formulas.{Formula};
ghost use Rattle.bg_formula.specs.Meaning.{Valuation, clauses_true};
ghost use Rattle.bg_forms.specs.Worth.{bools_at};
ghost use Rattle.bg_clause.specs.Tables.{there_in};
ghost use Rattle.bg_clause.specs.Whole.{clauses_of};
ghost use Rattle.bg_linear.specs.Sorts.{scalar_values, kind_ex, is_truth};
ghost use Rattle.bg_atoms.specs.Ranks.{rank};
ghost use Rattle.bg_atoms.specs.Sorted.{blocks_sorted};
ghost use Rattle.bg_faithful.specs.Encoded.{Encoding, Encodes};
ghost use Rattle.bg_terms.specs.Terms.{Term, over};
ghost use Rattle.bg_terms.specs.Alike.{HasFlatType, scalar_ty};
ghost use Rattle.bg_flat.specs.Blocks.{FlatBlocks, in_front};
ghost use Rattle.bg_flat.specs.Fronts.{AreTruths, EachLinear};
ghost use Rattle.bg_flat_clauses.specs.Linear.{LinearBlocks};
ghost use Rattle.bg_flat_clauses.specs.Sorts.{flat_sorts};

use bg_clause::laws::{atoms_of_clauses, clauses_fail_alike};
use bg_formed::laws::blocks_of_forms_are_well_alike;
use bg_linear::laws::scalar_values_hold;

/// A flat truth in which each product has a constant side is a truth over the sorts of what stands for incarnations and terms.
pub fn flat_truths_are_sorted()
    ensures { (tys : List Ty) (x : Ex) → HasFlatType tys x BoolTy → IsLinear x → is_truth (kind_ex (flat_sorts tys) x) ≡ true }
{}

/// Flat blocks behind a front are sorted: each command says a truth over the sorts of what stands for incarnations and terms, where the front
/// is made of linear truths, and the blocks that were made flat are linear.
pub fn flat_blocks_are_sorted()
    ensures { (tys : List Ty) (n : ℕ) (ts : List Term) (candidates : ℕ) (front : List Ex) (blocks flat : List PassiveBlock) →
        AreTruths tys front → EachLinear front → LinearBlocks candidates blocks → FlatBlocks tys n ts blocks flat →
        blocks_sorted (flat_sorts tys) candidates (in_front front flat) ≡ true }
{
    bg_terms::laws::flat_expressions_are_over_scalars()
}

/// Where the equations deny the entry of blocks under typed scalars and truth values of the candidates, there is a valuation that agrees with
/// them and makes the clauses of each encoding of the blocks true; and under a valuation that makes the clauses true the equations deny the
/// entry, where the candidates are there whose atoms it makes true.
pub fn flat_clauses_fail_alike()
    ensures met { (tys : List Ty) (candidates : ℕ) (blocks : List PassiveBlock) (a : Encoding) (target : Spot) (f : Formula) →
        Encodes (flat_sorts tys) candidates blocks a → clauses_of a.first a.named a.terms a.rows target a.blocks ≡ Ok f →
        (s : List Val) (set : ℕ → Bool) → are_of (map scalar_ty tys) s ≡ true → is_well (slice_get (equations set target (over s) blocks) 0) ≡ false →
        (v : Valuation) × ((s ≡ scalar_values v.numbers (λ j. v.truths (rank (flat_sorts tys) j)) (flat_sorts tys))
        × (((b : ℕ) → bools_at a.named b ≡ true → there_in f.candidates v.truths b ≡ set b) × (clauses_true v f.atoms f.clauses ≡ true))) }
    ensures denied { (tys : List Ty) (candidates : ℕ) (blocks : List PassiveBlock) (a : Encoding) (target : Spot) (f : Formula) →
        Encodes (flat_sorts tys) candidates blocks a → clauses_of a.first a.named a.terms a.rows target a.blocks ≡ Ok f →
        (v : Valuation) → clauses_true v f.atoms f.clauses ≡ true →
        is_well (slice_get (equations (there_in f.candidates v.truths) target (over (scalar_values v.numbers (λ j. v.truths (rank (flat_sorts tys) j)) (flat_sorts tys))) blocks) 0) ≡ false }
{
    blocks_of_forms_are_well_alike();
    clauses_fail_alike();
    atoms_of_clauses();
    scalar_values_hold()
}
