//! The blocks of an implementation made flat.
ghost use Rattle.std.specs.Prelude.{◌≡◌, List, map, IfOk};
ghost use Rattle.bg_ast.specs.Syntax.{Fun};
ghost use Rattle.bg_incarnate.specs.Views.{passive_block_of};
ghost use Rattle.bg_term_table.specs.Views.{terms_in, incs_of, GiveThese};
ghost use Rattle.bg_flatten.specs.Numbered.{terms_of, flat_of};

use crate::blocks::blocks_flat;
use bg_incarnate::PassiveBlock;
use bg_term_table::{Around, Term, Terms};
use std::alloc::{AllocError, Global};

/// Terms, and blocks that are flat over incarnations and terms: term a stands at the number of incarnations plus a.
#[derive(Drop)]
pub struct Flat {
    pub terms: Vec<Term>,
    pub blocks: Vec<PassiveBlock>,
}

/// The blocks of an implementation over incarnations made flat, with their terms.
///
/// Only want of memory is an error; 2^32 incarnations and terms count as such.
pub fn flattened(
    alloc: Global,
    around: Around<'_>,
    blocks: &[PassiveBlock],
) -> Result<Flat, AllocError>
    ensures terms { IfOk result (λ made. (fs : List Fun) → GiveThese fs around.entry → terms_in fs made.terms.items ≡ terms_of fs (incs_of around.entry) (map passive_block_of blocks.now)) }
    ensures blocks { IfOk result (λ made. (fs : List Fun) → GiveThese fs around.entry → map passive_block_of made.blocks.items ≡ flat_of fs (incs_of around.entry) (map passive_block_of blocks.now)) }
{
    let mut terms = Terms::new(alloc);
    let blocks = blocks_flat(alloc, around, &mut terms, blocks)?;
    Ok(Flat {
        terms: terms.into_terms(),
        blocks,
    })
}
