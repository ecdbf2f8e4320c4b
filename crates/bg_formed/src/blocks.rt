//! Blocks of forms.
use bg_base::{CandId, OutOfRange};
use bg_forms::Form;
use bg_places::Spot;

/// What a command says: a form, or the operation of a linear form in it that leaves 128 bits.
#[derive(Drop)]
pub enum Says {
    Form(Form),
    Outside(OutOfRange),
}

/// A command says something of atoms, where its candidate is there: what is checked at a place, or supposed.
#[derive(Drop)]
pub enum FormCmd {
    Claims(Spot, Option<CandId>, Says),
    Supposes(Option<CandId>, Says),
}

/// The way to a later block, counted from the next one, with what is supposed on it.
#[derive(Drop)]
pub struct FormEdge {
    pub cmds: Vec<FormCmd>,
    pub to: usize,
}

/// Commands, and where they lead.
#[derive(Drop)]
pub struct FormBlock {
    pub cmds: Vec<FormCmd>,
    pub next: Vec<FormEdge>,
}
