//! The whole program.
ghost use Rattle.std.specs.Prelude.{◌≡◌, IfOk};
ghost use Rattle.bg_gen.specs.Generated.{generated};

use crate::draws::{next, start};
use crate::put::put_part;
use std::alloc::{AllocError, Global};

/// The text of the program of a seed and a size, the number of its procedures. Each has three candidates: that the counter is at least
/// where it starts, that it is at most where it ends, and that it is at least another number, which holds exactly where this is where it
/// starts.
///
/// # Errors
/// Only want of memory is an error.
pub fn generate(alloc: Global, seed: u64, size: u32) -> Result<Vec<u8>, AllocError>
    ensures { IfOk result (λ text. text.items ≡ generated seed size) }
{
    let mut out = Vec::new(alloc);
    let mut before = None;
    let mut state = start(seed);
    for k in 0..size {
        let low = next(state);
        state = next(low);
        let a = (low / 65_536 % 10) as u32;
        let b = a + (state / 65_536 % 3) as u32;
        put_part(&mut out, before, k, a, b)?;
        before = Some((k, a));
    }
    Ok(out)
}
