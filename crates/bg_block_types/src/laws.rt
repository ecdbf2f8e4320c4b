//! Laws of the blocks of typed implementations, which are proved of the definitions alone.
ghost use Rattle.std.specs.Prelude.{◌≡◌, ℕ, Some, slice_get};
ghost use Rattle.bg_ast.specs.Syntax.{Prog, Impl, Proc};
ghost use Rattle.bg_sense.specs.Typed.{IsTyped};
ghost use Rattle.bg_sense.specs.Variables.{procedure_of};
ghost use Rattle.bg_flow.specs.Core.{frame_decls};
ghost use Rattle.bg_block_types.specs.Typed.{sig_over, TypedBlocks, blocks_in, incarnations_in, passives_in};
ghost use Rattle.bg_block_types.specs.TypedFlow.{CodeIsTyped};

use bg_passive::laws::{arrivals_are_typed, arrivals_fit};
use bg_sense::laws::typed_programs_have_typed_bodies;

/// Each command of the passive blocks of a typed program's implementation says a truth over the incarnations, linear and without `old`.
pub fn passive_blocks_are_typed()
    ensures { (p : Prog) (k : ℕ) (m : Impl) (q : Proc) → IsTyped p →
        slice_get p.implementations k ≡ Some m → procedure_of p m.procedure ≡ Some q →
        TypedBlocks (sig_over p (incarnations_in p k m q)) (passives_in p k m q) }
{
    typed_programs_have_typed_bodies();
    arrivals_fit();
    arrivals_are_typed()
}

/// Each command of the blocks of a typed program's implementation says truths over its variables, and gives values of the types of what takes them.
pub fn blocks_are_typed()
    ensures { (p : Prog) (k : ℕ) (m : Impl) (q : Proc) → IsTyped p →
        slice_get p.implementations k ≡ Some m → procedure_of p m.procedure ≡ Some q →
        CodeIsTyped p (frame_decls m q) (blocks_in p k m q) }
{}
