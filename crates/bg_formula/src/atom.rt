//! Atoms and literals.
ghost use Rattle.std.specs.Prelude.{◌≡◌, Ok};
ghost use Rattle.bg_rows.specs.Rows.{row_of, denied};

use bg_rows::Row;

/// An atom's number, from 0, with the sign that it is to have.
#[derive(Clone, Copy)]
pub struct Literal {
    pub atom: u32,
    pub sign: bool,
}

/// A row over the formula's terms, with the row that holds exactly where it does not.
#[derive(Drop)]
pub struct Linear {
    pub row: Row,
    pub denial: Row,
    ghost denies: { denied (row_of row) ≡ Ok (row_of denial) },
}

/// An atom: a truth variable of this number, or a row.
#[derive(Drop)]
pub enum Atom {
    Truth(u32),
    Holds(Linear),
}
