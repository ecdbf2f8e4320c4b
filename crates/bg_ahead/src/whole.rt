//! Blocks of forms with more commands in front.
ghost use Rattle.std.specs.Prelude.{◌≡◌, IfOk};
ghost use Rattle.bg_formed.specs.Views.{form_cmds_of, blocks_of};
ghost use Rattle.bg_ahead.specs.Moved.{first_cmds};
ghost use Rattle.bg_ahead.specs.Ahead.{IsAhead};

use crate::moved::moved_behind;
use crate::rows::{Merged, beside};
use bg_atoms::Atoms;
use bg_formed::{FormBlock, FormCmd};
use std::alloc::{AllocError, Global};

/// The commands of the first block.
fn first_cmds(alloc: Global, blocks: Vec<FormBlock>) -> Vec<FormCmd>
    ensures { form_cmds_of result.items ≡ first_cmds (blocks_of blocks) }
{
    let mut blocks = blocks;
    if blocks.is_empty() {
        return Vec::new(alloc);
    }
    blocks.swap_remove(0).cmds
}

/// Blocks of forms behind the commands of the first block in front, which may speak of more incarnations: nothing is made again but numbers
/// of atoms. The rows of the front come first, then those of the base that aren't among them and of which no denial is.
///
/// Only want of memory is an error; 2^32 atoms count as such.
pub fn ahead(alloc: Global, front: Atoms, base: &Atoms) -> Result<Atoms, AllocError>
    ensures { IfOk result (IsAhead front base.now) }
{
    let Atoms {
        first,
        terms,
        rows,
        blocks,
    } = front;
    let Merged { rows, goes } = beside(alloc, base.first, first, rows, &base.rows)?;
    let front = first_cmds(alloc, blocks);
    let blocks = moved_behind(alloc, &goes, front, &base.blocks)?;
    Ok(Atoms {
        first,
        terms,
        rows,
        blocks,
    })
}
