//! Passive blocks.
use bg_ast::resolved::Expr;
use bg_base::CandId;
use bg_places::Spot;

/// A command says something of incarnations, where its candidate is there: what is checked at a place, or supposed.
#[derive(Drop)]
pub enum PassiveCmd {
    Claims(Spot, Option<CandId>, Expr),
    Supposes(Option<CandId>, Expr),
}

/// The way to a later block, counted from the next one, with what is supposed on it.
#[derive(Drop)]
pub struct Edge {
    pub cmds: Vec<PassiveCmd>,
    pub to: usize,
}

/// Commands, and where they lead.
#[derive(Drop)]
pub struct PassiveBlock {
    pub cmds: Vec<PassiveCmd>,
    pub next: Vec<Edge>,
}

/// The incarnation of each global, and of each variable of the frame.
#[derive(Drop)]
pub struct Incarnations {
    pub globals: Vec<u32>,
    pub frame: Vec<u32>,
}

/// Passive blocks, the incarnations and the first new one at each arrival, and how many incarnations are given out.
#[derive(Drop)]
pub struct Passive {
    pub blocks: Vec<PassiveBlock>,
    pub arrivals: Vec<Incarnations>,
    pub firsts: Vec<u32>,
    pub count: u32,
}
