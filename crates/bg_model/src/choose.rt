//! The values of incarnations.
ghost use Rattle.std.specs.Prelude.{◌≡◌, ◌++◌, List, map, IfOk, OnOk};
ghost use Rattle.bg_ast.specs.Values.{Val};
ghost use Rattle.bg_sense.specs.Eval.{value_at};
ghost use Rattle.bg_sense.specs.Variables.{count_from};
ghost use Rattle.bg_scalar.specs.Values.{value_of};
ghost use Rattle.bg_model.specs.Fronts.{chosen_from};
ghost use Rattle.bg_model.specs.Picks.{choice_by};

use crate::pick::Pick;
use crate::share::add;
use bg_scalar::{Scalar, Value, copy};
use std::alloc::{AllocError, Global};

/// The value of an incarnation; 0 past the end of the list.
pub fn copy_at(alloc: Global, values: &[Value], j: usize) -> Result<Value, AllocError>
    ensures { IfOk result (λ x. value_of x ≡ value_at (map value_of values.now) j) }
{
    match values.get(j) {
        None => Ok(Value::Plain(Scalar::Number(0))),
        Some(x) => copy(alloc, x),
    }
}

/// The values of so many incarnations, from this one on.
pub fn values_from(
    alloc: Global,
    values: &[Value],
    first: usize,
    many: usize,
) -> Result<Vec<Value>, AllocError>
    ensures { IfOk result (λ made. map value_of made.items ≡ map (value_at (map value_of values.now)) (count_from first many)) }
{
    let mut made = Vec::new(alloc);
    let mut left = many;
    let mut j = first;
    while left > 0 {
        made.push(copy_at(alloc, values, j)?)?;
        j = add(j, 1)?;
        left -= 1;
    }
    Ok(made)
}

/// Adds so many incarnations, from this one on, to what is picked.
pub fn choose(made: &mut Vec<Pick>, first: usize, many: usize) -> Result<(), AllocError>
    ensures { OnOk result ((vs : List Val) → map (choice_by vs) made.new.items ≡ map (choice_by vs) made.old.items ++ chosen_from vs first many) }
{
    let mut left = many;
    let mut j = first;
    while left > 0 {
        made.push(Pick::Incarnation(j))?;
        j = add(j, 1)?;
        left -= 1;
    }
    Ok(())
}
