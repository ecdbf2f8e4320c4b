//! Rows, each once, with the literals that say that they hold.
ghost use Rattle.std.specs.Prelude.{◌≡◌, ℕ, true, false, List, [], None, IfOk, OnOk};
ghost use Rattle.bg_rows.specs.Keys.{key_of};
ghost use Rattle.bg_rows.specs.Rows.{row_of};
ghost use Rattle.bg_formula.specs.Atoms.{AtomOf, view_linear};
ghost use Rattle.bg_atoms.specs.Worlds.{Begins, IsLiteral};
ghost use Rattle.bg_atoms.specs.Made.{rows_in};
ghost use Rattle.bg_atoms.specs.Listed.{add_row};
ghost use Rattle.bg_atoms.specs.Tables.{known_at, literal_by, IsPut, IsTable};
ghost use Rattle.bg_atoms.specs.Growing.{Grows};

use crate::named::sum;
use bg_formula::{Linear, Literal};
use bg_rows::{Key, key};
use std::alloc::{AllocError, Global};
use std::collections::HashMap;

/// Rows, of which row i is the atom so far behind the first one, and the literals of rows by their keys.
#[derive(Drop)]
pub struct Table {
    pub rows: Vec<Linear>,
    pub known: HashMap<Key, Literal>,
}

/// Keeps a literal at a key, unless there is one.
fn put(known: &mut HashMap<Key, Literal>, at: Key, l: Literal) -> Result<(), AllocError>
    ensures { OnOk result (IsPut (at.0.items, at.1) l known.old known.new) }
{
    if known.get(&at).is_some() {
        return Ok(());
    }
    known.insert(at, l)?;
    Ok(())
}

/// Keeps a literal at a key at which there is none.
fn put_first(known: &mut HashMap<Key, Literal>, at: Key, l: Literal) -> Result<(), AllocError>
    requires { known_at known.old (at.0.items, at.1) ≡ None }
    ensures { OnOk result (IsPut (at.0.items, at.1) l known.old known.new) }
{
    known.insert(at, l)?;
    Ok(())
}

impl Table {
    /// No rows.
    pub fn new(alloc: Global) -> Table
        ensures rows { result.rows.items ≡ [] }
        ensures table { (base : ℕ) → IsTable base result }
    {
        Table {
            rows: Vec::new(alloc),
            known: HashMap::new(alloc),
        }
    }

    /// The literal of the row with this key, if the row or its denial is there.
    fn found(&self, at: &Key) -> Option<Literal>
        ensures { (base : ℕ) → IsTable base self.now → result ≡ literal_by (at.now.0.items, at.now.1) base (rows_in self.now.rows) }
    {
        self.known.get(at).copied()
    }

    /// One more row, where neither it nor its denial is there.
    fn add(&mut self, alloc: Global, base: u32, at: Key, a: Linear) -> Result<Literal, AllocError>
        requires table { IsTable base self.old }
        requires key { (at.0.items, at.1) ≡ key_of (row_of a.row) }
        requires new { literal_by (key_of (row_of a.row)) base (rows_in self.old.rows) ≡ None }
        ensures grows { OnOk result (Grows base (add_row (view_linear a)) self.old self.new) }
        ensures literal { IfOk result (λ l. (all : List AtomOf) → Begins (rows_in self.new.rows) all → IsLiteral base all (row_of a.row) l) }
    {
        let count = match u32::try_from(self.rows.len()) {
            Ok(n) => n,
            Err(_) => return Err(AllocError),
        };
        let atom = sum(base, count)?;
        let denial = key(alloc, &a.denial)?;
        put_first(&mut self.known, at, Literal { atom, sign: true })?;
        put(&mut self.known, denial, Literal { atom, sign: false })?;
        self.rows.push(a)?;
        Ok(Literal { atom, sign: true })
    }

    /// The literal that says that the row holds, where the rows begin at this atom; the row is there from now on. 2^32 atoms count as
    /// want of memory.
    pub fn literal(&mut self, alloc: Global, base: u32, a: Linear) -> Result<Literal, AllocError>
        requires table { IsTable base self.old }
        ensures grows { OnOk result (Grows base (add_row (view_linear a)) self.old self.new) }
        ensures literal { IfOk result (λ l. (all : List AtomOf) → Begins (rows_in self.new.rows) all → IsLiteral base all (row_of a.row) l) }
    {
        let at = key(alloc, &a.row)?;
        match self.found(&at) {
            Some(l) => Ok(l),
            None => self.add(alloc, base, at, a),
        }
    }

    /// The rows.
    pub fn into_rows(self) -> Vec<Linear>
        ensures { result.items ≡ self.rows.items }
    {
        self.rows
    }
}
