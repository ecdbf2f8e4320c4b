//! Laws of implementations over values, which are proved of the definitions alone.
ghost use Rattle.std.specs.Prelude.{◌≡◌, ℕ, true, List, [], Some, Ok, slice_get, IsTrue};
ghost use Rattle.bg_ast.specs.Syntax.{Prog, Impl, Proc};
ghost use Rattle.bg_ast.specs.Values.{Val};
ghost use Rattle.bg_ast.specs.Execution.{Interp, Spot};
ghost use Rattle.bg_sense.specs.Types.{are_of};
ghost use Rattle.bg_sense.specs.Claims.{IsState};
ghost use Rattle.bg_sense.specs.Interps.{Meets};
ghost use Rattle.bg_sense.specs.Tables.{are_tables};
ghost use Rattle.bg_sense.specs.Typed.{IsTyped};
ghost use Rattle.bg_sense.specs.Variables.{procedure_of};
ghost use Rattle.bg_flow.specs.Core.{frame_decls};
ghost use Rattle.bg_passive.specs.Passive.{PassiveBlock};
ghost use Rattle.bg_passive.specs.Incarnations.{first_state};
ghost use Rattle.bg_formula.specs.Formulas.{Formula, is_whole};
ghost use Rattle.bg_incarnate.specs.Even.{BlocksEven};
ghost use Rattle.bg_fits.specs.Valued.{is_over_values};
ghost use Rattle.bg_clause.specs.Whole.{clauses_of};
ghost use Rattle.bg_linear.specs.declared.scalar.Sort.{Sort};
ghost use Rattle.bg_block_types.specs.Typed.{blocks_in, incarnations_in, passives_in};
ghost use Rattle.bg_faithful.specs.Checks.{BlocksPlaced};
ghost use Rattle.bg_faithful.specs.Encoded.{Encoding, Encodes};

use bg_block_types::laws::blocks_are_typed;
use bg_clause::laws::atoms_of_clauses;

/// In the blocks of an implementation each assignment has as many values as targets, and each call as many arguments as parameters.
pub fn blocks_over_values_are_even()
    ensures { (p : Prog) (k : ℕ) (m : Impl) (q : Proc) → IsTyped p → is_over_values p ≡ true →
        slice_get p.implementations k ≡ Some m → procedure_of p m.procedure ≡ Some q → BlocksEven (blocks_in p k m q) }
{
    blocks_are_typed()
}

/// Each check of the passive blocks is at a place of the program, and has its candidate.
pub fn checks_of_passive_blocks_are_places()
    ensures { (p : Prog) (k : ℕ) (m : Impl) (q : Proc) → is_over_values p ≡ true →
        slice_get p.implementations k ≡ Some m → procedure_of p m.procedure ≡ Some q → BlocksPlaced p (passives_in p k m q) }
{}

/// Typed values of the incarnations begin with a state of the implementation.
pub fn typed_values_begin_with_a_state()
    ensures { (p : Prog) (k : ℕ) (m : Impl) (q : Proc) → IsTyped p → is_over_values p ≡ true →
        slice_get p.implementations k ≡ Some m → procedure_of p m.procedure ≡ Some q →
        (values : List Val) → are_of (incarnations_in p k m q) values ≡ true → IsState p k (first_state p (frame_decls m q) values) }
{}

/// An interpretation without constants that has a typed table for each function meets a program over values.
pub fn tables_meet_programs_over_values()
    ensures { (p : Prog) (i : Interp) → is_over_values p ≡ true → i.constants ≡ [] → IsTrue (are_tables p.functions i.tables) → Meets p i }
{}

/// What names an atom or a term in the clauses of an encoding names one that is there.
pub fn clauses_of_encodings_are_whole()
    ensures { (sorts : List Sort) (candidates : ℕ) (blocks : List PassiveBlock) (a : Encoding) (target : Spot) (f : Formula) →
        Encodes sorts candidates blocks a → clauses_of a.first a.named a.terms a.rows target a.blocks ≡ Ok f → is_whole f ≡ true }
{
    atoms_of_clauses()
}
