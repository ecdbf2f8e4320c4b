//! The signs with which atoms stand among literals.
ghost use Rattle.std.specs.Prelude.{◌≡◌, ℕ, ◌==◌, if◌then◌else◌, None, Some, OnOk};
ghost use Rattle.bg_clause.specs.Signs.{sign_in};

use bg_formula::Literal;
use std::alloc::{AllocError, Global};
use std::collections::HashMap;

/// Atoms, each with the sign of a literal.
#[derive(Drop)]
pub struct Signs {
    map: HashMap<u32, bool>,
}

/// None so far.
pub fn no_signs(alloc: Global) -> Signs
    ensures { (a : ℕ) → sign_in result a ≡ None }
{
    Signs {
        map: HashMap::new(alloc),
    }
}

/// The sign of an atom.
pub fn sign_of(signs: &Signs, atom: u32) -> Option<bool>
    ensures { result ≡ sign_in signs.now atom }
{
    signs.map.get(&atom).copied()
}

/// The sign of one more literal's atom.
pub fn note(signs: &mut Signs, l: Literal) -> Result<(), AllocError>
    ensures { OnOk result ((a : ℕ) → sign_in signs.new a ≡ (if l.atom == a then Some l.sign else sign_in signs.old a)) }
{
    signs.map.insert(l.atom, l.sign)?;
    Ok(())
}
