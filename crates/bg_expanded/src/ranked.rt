//! Functions in the order of their ranks.
ghost use Rattle.std.specs.Prelude.{◌≡◌, ◌<◌, ◌^◌, length, IfOk};
ghost use Rattle.std.specs.List.Sorted.{IsPermutation, IsNonDecreasingBy};
ghost use Rattle.bg_expanded.specs.Ranked.{ranked_from};

use std::alloc::{AllocError, Global};

/// A function, and its rank.
#[derive(Clone, Copy)]
pub struct Ranked {
    pub rank: u32,
    pub function: u32,
}

/// The functions with these ranks.
fn listed(alloc: Global, ranks: &[u32]) -> Result<Vec<Ranked>, AllocError>
    requires { length ranks.now < 2 ^ 32 }
    ensures { IfOk result (λ made. made.items ≡ ranked_from 0 ranks.now) }
{
    let mut made = Vec::new(alloc);
    for function in 0..ranks.len() as u32 {
        made.push(Ranked {
            rank: ranks[function as usize],
            function,
        })?;
    }
    Ok(made)
}

/// The functions with these ranks, in the order of the ranks.
pub fn by_rank(alloc: Global, ranks: &[u32]) -> Result<Vec<Ranked>, AllocError>
    requires { length ranks.now < 2 ^ 32 }
    ensures same { IfOk result (λ made. IsPermutation (ranked_from 0 ranks.now) made.items) }
    ensures rising { IfOk result (λ made. IsNonDecreasingBy (λ r. r.rank) made.items) }
{
    let mut made = listed(alloc, ranks)?;
    made.sort_by_key(|r| r.rank)?;
    Ok(made)
}
