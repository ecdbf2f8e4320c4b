//! Work for threads by turns: each thread takes the next number that none has taken yet, from both ends, so that long calls leave no thread idle.
#![tactic(auto)]

mod chunks;
mod crew;
mod gather;
mod turns;

pub use chunks::map_chunks;
pub use crew::for_each_mut;
