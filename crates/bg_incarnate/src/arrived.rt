//! What is known of a block that was walked.
use crate::blocks::PassiveCmd;
use crate::held::Held;

/// The incarnations of the variables at a block's arrival, and the first new one; its commands, and the incarnations at its end.
#[derive(Drop)]
pub struct Arrived<'b> {
    pub held: Held<'b>,
    pub next: u32,
    pub cmds: Vec<PassiveCmd>,
    pub end: Held<'b>,
}
