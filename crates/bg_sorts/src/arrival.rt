//! The types of the new incarnations of an arrival.
ghost use Rattle.std.specs.Prelude.{◌≡◌, map, OnOk};
ghost use Rattle.bg_kinds.specs.Views.{ref_in};
ghost use Rattle.bg_sorts.specs.Arrivals.{with_one, with_new};

use bg_fits::kind_copied;
use bg_kinds::ValueType;
use std::alloc::{AllocError, Global};

/// Adds the type of an incarnation, where it is a new one.
fn push_one(
    alloc: Global,
    made: &mut Vec<ValueType>,
    j: u32,
    t: &ValueType,
) -> Result<(), AllocError>
    ensures { OnOk result (map ref_in made.new.items ≡ with_one j (ref_in t.now) (map ref_in made.old.items)) }
{
    if j as usize >= made.len() {
        made.push(kind_copied(alloc, t.as_ref())?)?;
    }
    Ok(())
}

/// Adds the types of the variables whose incarnations are new.
#[tactic(auto, using(crate::proofs::Given::new_past))]
pub fn push_new(
    alloc: Global,
    made: &mut Vec<ValueType>,
    numbers: &[u32],
    kinds: &[ValueType],
) -> Result<(), AllocError>
    ensures { OnOk result (map ref_in made.new.items ≡ with_new numbers.now (map ref_in kinds.now) (map ref_in made.old.items)) }
{
    for (i, j) in numbers.iter().enumerate() {
        if i >= kinds.len() {
            return Ok(());
        }
        push_one(alloc, made, *j, &kinds[i])?;
    }
    Ok(())
}
