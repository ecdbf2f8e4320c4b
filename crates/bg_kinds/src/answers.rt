//! The faults that are answered.
ghost use Rattle.std.specs.Prelude.{◌≡◌, IfOk};
ghost use Rattle.bg_kinds.specs.FaultViews.{wanted_of, fault_of, best_of};
ghost use Rattle.bg_kinds.specs.Views.{ref_of, ref_in};
ghost use Rattle.bg_kinds.specs.Owned.{wanted_type_of, answered, answer_of};

use crate::faults::{Found, Wanted};
use crate::kinds::{TypeRef, ValueType};
use crate::written::copy_maps;
use bg_base::Pos;
use bg_text::Name;
use std::alloc::{AllocError, Global};

/// What is wanted of an expression: a map of any type, or this type.
#[derive(Drop)]
pub enum WantedType {
    SomeMap,
    Wants(ValueType),
}

/// A fault, with its position; that of a synonym is at its name.
#[derive(Drop)]
pub enum Fault {
    CyclicSynonym(Name),
    MapIndex(Pos),
    Arity(Pos),
    Mismatch(Pos, WantedType, ValueType),
    Nonlinear(Pos),
}

fn owned_type(alloc: Global, t: TypeRef<'_>) -> Result<ValueType, AllocError>
    ensures { IfOk result (λ made. ref_in made ≡ ref_of t.entry) }
{
    let maps = copy_maps(alloc, t.maps)?;
    Ok(ValueType { maps, base: t.base })
}

fn owned_wanted(alloc: Global, wanted: Wanted<'_>) -> Result<WantedType, AllocError>
    ensures { IfOk result (λ made. wanted_type_of made ≡ wanted_of wanted.entry) }
{
    match wanted {
        Wanted::SomeMap => Ok(WantedType::SomeMap),
        Wanted::Wants(t) => Ok(WantedType::Wants(owned_type(alloc, t)?)),
    }
}

fn owned_fault(alloc: Global, found: Found<'_>) -> Result<Fault, AllocError>
    ensures { IfOk result (λ made. answered made ≡ fault_of found.entry) }
{
    match found {
        Found::MapIndex(p) => Ok(Fault::MapIndex(p)),
        Found::Arity(p) => Ok(Fault::Arity(p)),
        Found::Mismatch(p, wanted, t) => {
            let wanted = owned_wanted(alloc, wanted)?;
            let t = owned_type(alloc, t)?;
            Ok(Fault::Mismatch(p, wanted, t))
        }
        Found::Nonlinear(p) => Ok(Fault::Nonlinear(p)),
    }
}

/// The best fault, to be kept.
pub fn owned(alloc: Global, best: Option<Found<'_>>) -> Result<Option<Fault>, AllocError>
    ensures { IfOk result (λ made. answer_of made ≡ best_of best.entry) }
{
    match best {
        None => Ok(None),
        Some(found) => {
            let fault = owned_fault(alloc, found)?;
            Ok(Some(fault))
        }
    }
}
