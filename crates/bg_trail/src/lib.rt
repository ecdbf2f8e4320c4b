//! The path of a search that learns clauses, and all that follows on it: values on a trail, clauses with watched literals, atoms that are
//! bounds of columns with a simplex below, and lemmas from conflicts. Nothing is proved of what is found: a certificate that is written
//! of it is checked. Proved is that each call ends, and is safe.
#![tactic(auto)]

mod base;
mod bounds;
mod columns;
mod engine;
mod learning;
mod lemmas;
mod lines;
mod literals;
mod order;
mod packed;
mod propagation;
mod reason;
mod seats;
mod span;
mod table;
mod trail;
mod unit;

pub use base::{Base, add_clause, clause_at};
pub use columns::{Columns, Limit, Mark, column_of, find_column, form_of, limit_of, opposite};
pub use engine::{
    Counts, Desk, Engine, Limits, assign, decide, go_back, has_room, is_spent, new_engine,
};
pub use learning::learn;
pub use lemmas::{Lemma, Lemmas, Link, Parts, keep, part_at};
pub use literals::{atom_of, is_positive, literal, named, negated, numbered};
pub use order::{Front, Searched, is_met, is_opening, is_reached, next_literal};
pub use packed::{Packed, unpack};
pub use propagation::propagate;
pub use reason::{Reason, Reasons, needed, reason_of, size_of, top_level};
pub use seats::{reduced_of, row_atom, seat};
pub use span::{Span, begin_of, end_of, items, span_of};
pub use table::Table;
pub use trail::{Trail, at_place, is_false, is_open, is_true, place_of, start_of, truth};
pub use unit::units;
