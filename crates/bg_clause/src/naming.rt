//! Names of forms.
ghost use Rattle.std.specs.Prelude.{◌≡◌, suc, [], ◌∷◌, IfOk, OnOk};
ghost use Rattle.bg_clause.specs.Emitted.{names, denies, name_of, next_of, signed_as};
ghost use Rattle.bg_clause.specs.Lends.{lent_in};

use crate::lent::{Lent, literal_of};
use bg_forms::opposite;
use bg_formula::Literal;
use std::alloc::{AllocError, Global};

/// The next name. 2^32 of them count as want of memory.
pub fn take_next(next: &mut u32) -> Result<u32, AllocError>
    ensures ok { IfOk result (λ j. j ≡ next.old) }
    ensures more { OnOk result (next.new ≡ suc next.old) }
{
    let j = *next;
    match j.checked_add(1) {
        Some(n) => {
            *next = n;
            Ok(j)
        }
        None => Err(AllocError),
    }
}

/// The literal that an atom is true.
pub fn names(atom: u32) -> Literal
    ensures { result ≡ names atom }
{
    Literal { atom, sign: true }
}

/// The literal that an atom is false.
pub fn denies(atom: u32) -> Literal
    ensures { result ≡ denies atom }
{
    Literal { atom, sign: false }
}

/// A literal alone.
pub fn alone(alloc: Global, l: Literal) -> Result<Vec<Literal>, AllocError>
    ensures { IfOk result (λ made. made.items ≡ l ∷ []) }
{
    let mut made = Vec::new(alloc);
    made.push(l)?;
    Ok(made)
}

/// The denial of a new name.
fn denied_name(next: &mut u32) -> Result<Literal, AllocError>
    ensures named { IfOk result (λ l. l ≡ denies next.old) }
    ensures more { OnOk result (next.new ≡ suc next.old) }
{
    let name = take_next(next)?;
    Ok(denies(name))
}

/// The literal that stands for a form: a literal for itself, and for any other one the denial of a new name.
pub fn name_for(f: &Lent<'_>, next: &mut u32) -> Result<Literal, AllocError>
    ensures named { IfOk result (λ l. l ≡ name_of (lent_in f.now) next.old) }
    ensures more { OnOk result (next.new ≡ next_of (lent_in f.now) next.old) }
{
    match literal_of(f) {
        Some(l) => Ok(l),
        None => denied_name(next),
    }
}

/// The literal, or its denial.
pub fn signed_as(sign: bool, l: Literal) -> Literal
    ensures { result ≡ signed_as sign l }
{
    if sign { l } else { opposite(l) }
}
