//! Laws of what is made flat, which are proved of the definitions alone.
ghost use Rattle.std.specs.Prelude.{◌≡◌, ℕ, true, false, List, [], Some, slice_get};
ghost use Rattle.bg_ast.specs.Values.{Ty};
ghost use Rattle.bg_ast.specs.Syntax.{Fun, Prog};
ghost use Rattle.bg_passive.specs.Passive.{PassiveBlock};
ghost use Rattle.bg_block_types.specs.Typed.{sig_over, TypedBlocks};
ghost use Rattle.bg_terms.specs.Terms.{Term};
ghost use Rattle.bg_terms.specs.Closed.{is_differs};
ghost use Rattle.bg_numbered.specs.Indexed.{are_indexed, GiveIndexed};
ghost use Rattle.bg_numbered.specs.Lines.{Line, after_lines};
ghost use Rattle.bg_flatten.specs.Makes.{FineBlocks};
ghost use Rattle.bg_flatten.specs.Flattens.{AreFlattened};
ghost use Rattle.bg_flatten.specs.Numbered.{terms_of, flat_of};
ghost use Rattle.bg_flatten.specs.Plain.{are_mapless, PlainBlocks};

/// Typed blocks are made flat, where there are no constants.
pub fn typed_blocks_are_fine()
    ensures { (p : Prog) (incs : List Ty) (blocks : List PassiveBlock) → p.constants ≡ [] → TypedBlocks (sig_over p incs) blocks → FineBlocks p.functions incs blocks }
{}

/// The terms of blocks, and the blocks made flat over them, are fair terms and flat blocks, where the blocks are fine, and each map among
/// incarnations and in what functions give has an index.
pub fn numbered_blocks_are_flattened()
    ensures { (fs : List Fun) (incs : List Ty) (blocks : List PassiveBlock) → GiveIndexed fs → are_indexed incs ≡ true → FineBlocks fs incs blocks →
        AreFlattened fs incs blocks (terms_of fs incs blocks) (flat_of fs incs blocks) }
{
    bg_numbered::laws::numbered_expressions_are_flat()
}

/// Typed blocks hold no application, select, update and `old`, where there are no constants and functions, and no incarnation is a map.
pub fn blocks_without_functions_are_plain()
    ensures { (p : Prog) (incs : List Ty) (blocks : List PassiveBlock) → p.constants ≡ [] → p.functions ≡ [] → are_mapless incs ≡ true →
        TypedBlocks (sig_over p incs) blocks → PlainBlocks blocks }
{}

/// Blocks without applications, selects, updates and `old` have no terms, and are flat as they are.
pub fn plain_blocks_stay()
    ensures terms { (fs : List Fun) (incs : List Ty) (blocks : List PassiveBlock) → PlainBlocks blocks → terms_of fs incs blocks ≡ [] }
    ensures flat { (fs : List Fun) (incs : List Ty) (blocks : List PassiveBlock) → PlainBlocks blocks → flat_of fs incs blocks ≡ blocks }
{}

/// No term of blocks is a part of an index at which two maps differ.
pub fn terms_are_ordinary()
    ensures { (fs : List Fun) (incs : List Ty) (blocks : List PassiveBlock) (a : ℕ) (t : Term) → slice_get (terms_of fs incs blocks) a ≡ Some t → is_differs t.head ≡ false }
{}

/// Flat blocks stay so over the terms that lines bring.
pub fn flattened_blocks_stay()
    ensures { (fs : List Fun) (incs : List Ty) (blocks flat : List PassiveBlock) (ts : List Term) (ls : List Line) → AreFlattened fs incs blocks ts flat →
        AreFlattened fs incs blocks (after_lines incs ts ls) flat }
{
    bg_flat::laws::flat_blocks_stay();
    bg_numbered::laws::lines_bring_fair_terms()
}
