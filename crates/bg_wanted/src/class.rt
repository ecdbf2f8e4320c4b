//! What makes terms, by numbers.
ghost use Rattle.std.specs.Prelude.{◌≡◌, ◌+◌, true, List, slice_get, IfOk, OnOk};
ghost use Rattle.bg_ast.specs.Syntax.{Fun};
ghost use Rattle.bg_kinds.specs.Views.{keys_of, ref_of};
ghost use Rattle.bg_term_table.specs.Views.{head_of, terms_in};
ghost use Rattle.bg_wanted.specs.Classes.{speaks, speaks_there, first_met, class_in, place_of, AreMet, HasHead};

use bg_kinds::{Keys, TypeRef, is_same_type};
use bg_term_table::{Head, Term, are_same_keys};
use std::alloc::AllocError;

/// What makes a term of its arguments: the function with this number; or a select, an update or the part with the second number of an index
/// at which maps differ, of maps of the type of which the term with the first number is the first that speaks.
#[derive(Clone, Copy, PartialEq, Eq, PartialOrd, Ord, Debug)]
pub enum Class {
    Function(u32),
    Select(u32),
    Update(u32),
    Part(u32, u32),
}

/// Whether a head speaks of maps with these index types and this result type.
fn speaks_of(head: &Head, keys: &Keys, gives: TypeRef<'_>) -> bool
    ensures { result ≡ speaks (head_of head.now) (keys_of keys.now) (ref_of gives.entry) }
{
    match head {
        Head::Function(_) => false,
        Head::Selects(k, t) => are_same_keys(&k.keys, &keys.keys)
            && is_same_type(t.as_ref(), gives),
        Head::Updates(k, t) => are_same_keys(&k.keys, &keys.keys)
            && is_same_type(t.as_ref(), gives),
        Head::Differs(k, t, _) => are_same_keys(&k.keys, &keys.keys)
            && is_same_type(t.as_ref(), gives),
    }
}

/// A place as a number; 2^32 count as want of memory.
pub fn number(place: usize) -> Result<u32, AllocError>
    ensures { IfOk result (λ n. n ≡ place) }
{
    match u32::try_from(place) {
        Ok(n) => Ok(n),
        Err(_) => Err(AllocError),
    }
}

/// Whether the term at a place speaks of maps of this type.
fn speaks_at(terms: &[Term], m: u32, keys: &Keys, gives: TypeRef<'_>) -> bool
    ensures { (fs : List Fun) → result ≡ speaks_there (slice_get (terms_in fs terms.now) m) (keys_of keys.now) (ref_of gives.entry) }
{
    match terms.get(m as usize) {
        None => false,
        Some(t) => speaks_of(&t.head, keys, gives),
    }
}

/// The first of these places at which a term speaks of maps of this type.
pub fn found(met: &[u32], terms: &[Term], keys: &Keys, gives: TypeRef<'_>) -> Option<u32>
    ensures { (fs : List Fun) → result ≡ first_met (terms_in fs terms.now) (keys_of keys.now) (ref_of gives.entry) met.now }
{
    for m in met {
        if speaks_at(terms, *m, keys, gives) {
            return Some(*m);
        }
    }
    None
}

/// The place of the first term that speaks of maps of a type of which the term at this place speaks; `met` has the places of the first
/// terms before that speak of a type.
fn type_place(
    met: &mut Vec<u32>,
    terms: &[Term],
    place: u32,
    keys: &Keys,
    gives: TypeRef<'_>,
) -> Result<u32, AllocError>
    requires there { (fs : List Fun) → speaks_there (slice_get (terms_in fs terms.now) place) (keys_of keys.now) (ref_of gives) ≡ true }
    requires met { (fs : List Fun) → AreMet (terms_in fs terms.now) place met.old.items }
    ensures place { IfOk result (λ p. (fs : List Fun) → p ≡ place_of (keys_of keys.now) (ref_of gives.entry) (terms_in fs terms.now)) }
    ensures met { OnOk result ((fs : List Fun) → AreMet (terms_in fs terms.now) (place + 1) met.new.items) }
{
    match found(met, terms, keys, gives) {
        Some(m) => Ok(m),
        None => {
            met.push(place)?;
            Ok(place)
        }
    }
}

/// What makes the term at this place, which has this head.
pub fn class_of(
    met: &mut Vec<u32>,
    terms: &[Term],
    place: u32,
    head: &Head,
) -> Result<Class, AllocError>
    requires there { (fs : List Fun) → HasHead (terms_in fs terms.now) place (head_of head.now) }
    requires met { (fs : List Fun) → AreMet (terms_in fs terms.now) place met.old.items }
    ensures class { IfOk result (λ made. (fs : List Fun) → made ≡ class_in (terms_in fs terms.now) (head_of head.now)) }
    ensures met { OnOk result ((fs : List Fun) → AreMet (terms_in fs terms.now) (place + 1) met.new.items) }
{
    match head {
        Head::Function(f) => Ok(Class::Function(*f)),
        Head::Selects(k, t) => Ok(Class::Select(type_place(met, terms, place, k, t.as_ref())?)),
        Head::Updates(k, t) => Ok(Class::Update(type_place(met, terms, place, k, t.as_ref())?)),
        Head::Differs(k, t, j) => Ok(Class::Part(
            type_place(met, terms, place, k, t.as_ref())?,
            *j,
        )),
    }
}
