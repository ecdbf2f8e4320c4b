//! An implementation's passive blocks made flat.
ghost use Rattle.std.specs.Prelude.{◌≡◌, true, [], List, map, IfOk};
ghost use Rattle.bg_ast.specs.Syntax.{Fun};
ghost use Rattle.bg_ast.specs.Views.{program_of};
ghost use Rattle.bg_incarnate.specs.Views.{passive_block_of};
ghost use Rattle.bg_flatten.specs.Numbered.{terms_of, flat_of};
ghost use Rattle.bg_flatten.specs.Plain.{are_mapless, PlainBlocks};
ghost use Rattle.bg_term_table.specs.Views.{terms_in, incs_of, GiveThese};

use crate::kinds::are_mapless;
use bg_ast::resolved::Resolved;
use bg_flatten::laws::plain_blocks_stay;
use bg_flatten::{Flat, flattened};
use bg_incarnate::PassiveBlock;
use bg_term_table::Around;
use std::alloc::{AllocError, Global};

/// Passive blocks over incarnations made flat, with their terms. In a program without functions, where no incarnation is a map, they hold no
/// application, select, update and `old`, and are flat as they are.
pub fn made_flat(
    alloc: Global,
    program: &Resolved,
    around: Around<'_>,
    passives: Vec<PassiveBlock>,
) -> Result<Flat, AllocError>
    ensures terms { IfOk result (λ made. ((program_of program.now).functions ≡ [] → are_mapless (incs_of around.entry) ≡ true → PlainBlocks (map passive_block_of passives.items)) → (fs : List Fun) → GiveThese fs around.entry → terms_in fs made.terms.items ≡ terms_of fs (incs_of around.entry) (map passive_block_of passives.items)) }
    ensures blocks { IfOk result (λ made. ((program_of program.now).functions ≡ [] → are_mapless (incs_of around.entry) ≡ true → PlainBlocks (map passive_block_of passives.items)) → (fs : List Fun) → GiveThese fs around.entry → map passive_block_of made.blocks.items ≡ flat_of fs (incs_of around.entry) (map passive_block_of passives.items)) }
{
    plain_blocks_stay();
    if program.functions.is_empty() {
        if are_mapless(around.incarnations) {
            return Ok(Flat {
                terms: Vec::new(alloc),
                blocks: passives,
            });
        }
    }
    flattened(alloc, around, &passives)
}
