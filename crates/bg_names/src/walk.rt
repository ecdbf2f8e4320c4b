//! What changes on the way through a body: the first fault, the next number, the labels ahead, and the blocks around.
ghost use Rattle.std.specs.Prelude.{◌≡◌, ◌+◌, ◌++◌, IfOk, IfErr, OnOk, take, length, is_some};
ghost use Rattle.bg_names.specs.Spaces.{or_zero};
ghost use Rattle.bg_names.specs.Inside.{has_number, entered, block_of};
ghost use Rattle.bg_names.specs.Views.{around_of, blocks_of, stacked};
ghost use Rattle.bg_names.specs.declared.error.ResolveError.TheVariants.{Memory};

use crate::error::ResolveError;
use crate::names::number;
use crate::notes::Notes;

/// A label that a block has, and the block's number.
#[derive(Clone, Copy)]
pub struct Labelled {
    pub label: u32,
    pub block: u32,
}

/// What changes on the way through a body.
pub struct Walk<'a> {
    pub notes: Notes<'a>,
    /// The next number of a clause, call, loop or arm.
    pub next: usize,
    /// The labels that stand ahead, the nearest last.
    pub ahead: Vec<u32>,
    /// The labels of the blocks around, those of the innermost last.
    pub blocks: Vec<Labelled>,
}

/// Whether a number is among these: found fast where they rise.
pub fn has_number(ks: &[u32], k: u32) -> bool
    ensures { result ≡ has_number ks.now k }
{
    ks.binary_search(&k).is_ok() || ks.iter().any(|x| k == *x)
}

/// Takes so many numbers, and gives the first. Errors: Memory, where there are no more of 32 bits.
pub fn take_numbers(walk: &mut Walk, count: usize) -> Result<u32, ResolveError>
    ensures ok { IfOk result (λ n. n ≡ walk.old.next) }
    ensures next { OnOk result (walk.new.next ≡ walk.old.next + count) }
    ensures notes { walk.new.notes ≡ walk.old.notes }
    ensures ahead { walk.new.ahead ≡ walk.old.ahead }
    ensures blocks { walk.new.blocks ≡ walk.old.blocks }
    ensures err { IfErr result (λ e. e ≡ Memory) }
{
    let first = number(walk.next)?;
    let Some(next) = walk.next.checked_add(count) else {
        return Err(ResolveError::Memory);
    };
    walk.next = next;
    Ok(first)
}

/// Enters a block with these labels.
pub fn enter(blocks: &mut Vec<Labelled>, labels: &[u32], block: u32) -> Result<(), ResolveError>
    ensures entered { OnOk result (blocks_of blocks.new.items ≡ entered (stacked labels.now) block (blocks_of blocks.old.items)) }
    ensures around { OnOk result (around_of blocks.new.items ≡ stacked labels.now ++ around_of blocks.old.items) }
    ensures rest { OnOk result (take (length blocks.old.items) blocks.new.items ≡ blocks.old.items) }
    ensures err { IfErr result (λ e. e ≡ Memory) }
{
    for label in labels {
        blocks.push(Labelled {
            label: *label,
            block,
        })?;
    }
    Ok(())
}

/// The block that a label around names; none where no block around has the label.
pub fn find_block(blocks: &[Labelled], label: u32) -> Option<u32>
    ensures block { or_zero result ≡ block_of (blocks_of blocks.now) label }
    ensures is_there { is_some result ≡ has_number (around_of blocks.now) label }
{
    let mut left = blocks.len();
    while left > 0 {
        left -= 1;
        let x = blocks[left];
        if x.label == label {
            return Some(x.block);
        }
    }
    None
}
