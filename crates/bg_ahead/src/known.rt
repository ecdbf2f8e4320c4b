//! The literals of rows, by their keys.
ghost use Rattle.std.specs.Prelude.{◌≡◌, ℕ, ◌+◌, ℤ, List, map, Vec, IfOk, OnOk};
ghost use Rattle.std.specs.declared.alloc.Global.{Global};
ghost use Rattle.bg_rows.specs.Rows.{row_of};
ghost use Rattle.bg_formula.specs.Atoms.{AtomOf, view_linear};
ghost use Rattle.bg_atoms.specs.Literals.{literal_of};
ghost use Rattle.bg_atoms.specs.Tables.{known_at, literal_by, IsPut};

use bg_formula::{Linear, Literal};
use bg_rows::{Key, key};
use std::alloc::{AllocError, Global};
use std::collections::HashMap;

/// Keeps a literal at a key, unless there is one.
fn put(known: &mut HashMap<Key, Literal>, at: Key, l: Literal) -> Result<(), AllocError>
    ensures { OnOk result (IsPut (at.0.items, at.1) l known.old known.new) }
{
    if known.get(&at).is_some() {
        return Ok(());
    }
    known.insert(at, l)?;
    Ok(())
}

/// The next atom; 2^32 atoms count as want of memory.
pub fn next(atom: u32) -> Result<u32, AllocError>
    ensures { IfOk result (λ n. n ≡ atom + 1) }
{
    match atom.checked_add(1) {
        Some(n) => Ok(n),
        None => Err(AllocError),
    }
}

/// The literals of rows that are the atoms from this one on, by the rows' keys and by those of their denials. 2^32 atoms count as want of
/// memory.
pub fn known(
    alloc: Global,
    first: u32,
    rows: &[Linear],
) -> Result<HashMap<Key, Literal>, AllocError>
    ensures { IfOk result (λ made. (k : Vec (ℕ × ℤ) Global × ℤ) → known_at made (k.0.items, k.1) ≡ literal_by (k.0.items, k.1) first (map view_linear rows.now)) }
{
    let mut made = HashMap::new(alloc);
    let mut atom = first;
    for a in rows {
        put(&mut made, key(alloc, &a.row)?, Literal { atom, sign: true })?;
        put(
            &mut made,
            key(alloc, &a.denial)?,
            Literal { atom, sign: false },
        )?;
        atom = next(atom)?;
    }
    Ok(made)
}

/// The literal of a row that is known.
pub fn found(
    alloc: Global,
    known: &HashMap<Key, Literal>,
    a: &Linear,
) -> Result<Option<Literal>, AllocError>
    ensures { (n : ℕ) (rows : List AtomOf) → ((k : Vec (ℕ × ℤ) Global × ℤ) → known_at known.now (k.0.items, k.1) ≡ literal_by (k.0.items, k.1) n rows) → IfOk result (λ l. l ≡ literal_of (row_of a.now.row) n rows) }
{
    let at = key(alloc, &a.row)?;
    Ok(known.get(&at).copied())
}
