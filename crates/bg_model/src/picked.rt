//! Choices and their types, by what is picked.
ghost use Rattle.std.specs.Prelude.{◌≡◌, map, slice_get, unwrap_or, IfOk};
ghost use Rattle.bg_ast.specs.Values.{IntTy};
ghost use Rattle.bg_kinds.specs.Views.{ref_in};
ghost use Rattle.bg_scalar.specs.Values.{value_of};
ghost use Rattle.bg_scalar.specs.Choices.{choice_of};
ghost use Rattle.bg_model.specs.Picks.{choice_by, type_by};

use crate::choose::copy_at;
use crate::pick::Pick;
use bg_fits::kind_copied;
use bg_kinds::{Base, ValueType, plain};
use bg_scalar::{Choice, Value};
use std::alloc::{AllocError, Global};

/// A choice, where incarnations have these values.
fn choice_for(alloc: Global, values: &[Value], pick: Pick) -> Result<Choice, AllocError>
    ensures { IfOk result (λ c. choice_of c ≡ choice_by (map value_of values.now) pick) }
{
    match pick {
        Pick::Branch(k) => Ok(Choice::Branch(k)),
        Pick::Incarnation(j) => {
            let x = copy_at(alloc, values, j)?;
            Ok(Choice::Chosen(x))
        }
    }
}

/// The choices, where incarnations have these values.
pub fn choices_for(
    alloc: Global,
    values: &[Value],
    picks: &[Pick],
) -> Result<Vec<Choice>, AllocError>
    ensures { IfOk result (λ made. map choice_of made.items ≡ map (choice_by (map value_of values.now)) picks.now) }
{
    let mut made = Vec::new(alloc);
    for pick in picks {
        made.push(choice_for(alloc, values, *pick)?)?;
    }
    Ok(made)
}

/// The type of an incarnation; `int` past the end of the list.
fn kind_at(alloc: Global, kinds: &[ValueType], j: usize) -> Result<ValueType, AllocError>
    ensures { IfOk result (λ t. ref_in t ≡ unwrap_or (slice_get (map ref_in kinds.now) j) IntTy) }
{
    match kinds.get(j) {
        None => kind_copied(alloc, plain(Base::Int)),
        Some(t) => kind_copied(alloc, t.as_ref()),
    }
}

/// The type of a choice, where incarnations have these types.
fn kind_for(alloc: Global, kinds: &[ValueType], pick: Pick) -> Result<ValueType, AllocError>
    ensures { IfOk result (λ t. ref_in t ≡ type_by (map ref_in kinds.now) pick) }
{
    match pick {
        Pick::Branch(_) => kind_copied(alloc, plain(Base::Int)),
        Pick::Incarnation(j) => kind_at(alloc, kinds, j),
    }
}

/// The types of the choices, where incarnations have these types.
pub fn kinds_for(
    alloc: Global,
    kinds: &[ValueType],
    picks: &[Pick],
) -> Result<Vec<ValueType>, AllocError>
    ensures { IfOk result (λ made. map ref_in made.items ≡ map (type_by (map ref_in kinds.now)) picks.now) }
{
    let mut made = Vec::new(alloc);
    for pick in picks {
        made.push(kind_for(alloc, kinds, *pick)?)?;
    }
    Ok(made)
}
