//! Work in pieces.
ghost use Rattle.std.specs.Prelude.{◌<◌, IfOk, OnOk};
ghost use Rattle.bg_houdini.specs.Pieces.{IsWith, Joins};

use std::alloc::{AllocError, Global};

/// How many pieces there are for each thread, where there is enough work: what takes long in one of them is evened out by the others.
const PIECES: usize = 8;

/// How many of so many a piece has.
pub fn piece_size(count: usize, threads: u32) -> usize
    ensures { 0 < result }
{
    let pieces = (threads as usize) * PIECES;
    count.div_ceil(pieces.max(1)).max(1)
}

/// Takes in what a piece has.
fn take_in<T: Drop>(made: &mut Vec<T>, piece: Result<Vec<T>, AllocError>) -> Result<(), AllocError>
    ensures { OnOk result (IsWith piece made.old.items made.new.items) }
{
    let mut more = piece?;
    made.append(&mut more)?;
    Ok(())
}

/// What the pieces have, one behind the other.
pub fn joined<T: Drop>(
    alloc: Global,
    pieces: Vec<Result<Vec<T>, AllocError>>,
) -> Result<Vec<T>, AllocError>
    ensures { IfOk result (λ made. Joins pieces.items made.items) }
{
    let mut made = Vec::new(alloc);
    for piece in pieces {
        take_in(&mut made, piece)?;
    }
    Ok(made)
}
