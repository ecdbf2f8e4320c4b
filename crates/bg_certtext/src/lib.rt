//! Certificates as text: lines of words, written and read.
#![tactic(auto)]

mod draft;
mod error;
mod front;
mod functions;
mod keys;
pub mod laws;
mod nodes;
mod numeral;
mod parts;
mod put;
mod reader;
mod sorted;
mod spells;
mod stages;
mod stated;
mod tables;
mod text;
mod values;
mod words;
mod writer;

pub use error::ReadError;
pub use reader::read;
pub use spells::is_spellable;
pub use text::{
    CertText, Entry, Function, Given, Interp, Part, Section, Slot, Stated, Term, TextNode, TextRow,
    Value,
};
pub use writer::write;
