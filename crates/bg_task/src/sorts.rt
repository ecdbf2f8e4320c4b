//! The sorts of what stands for values.
ghost use Rattle.std.specs.Prelude.{◌≡◌, map, IfOk};
ghost use Rattle.bg_kinds.specs.Views.{base_of, ref_in, ref_of};
ghost use Rattle.bg_task.specs.Sorts.{flat_sort};

use bg_fits::base_in;
use bg_kinds::{Base, TypeRef, ValueType};
use bg_linear::Sort;
use std::alloc::{AllocError, Global};

fn sort_of(base: Base) -> Sort
    ensures { result ≡ flat_sort (base_of base) }
{
    match base {
        Base::Bool => Sort::Truth,
        Base::Int => Sort::Number,
        Base::User(_) => Sort::Number,
    }
}

/// The sort of what stands for a value of this type: elements and maps are told apart by numbers.
pub fn flat_sort(t: TypeRef<'_>) -> Sort
    ensures { result ≡ flat_sort (ref_of t.entry) }
{
    match base_in(t) {
        None => Sort::Number,
        Some(base) => sort_of(base),
    }
}

/// The sorts of what stands for values of these types.
pub fn flat_sorts(alloc: Global, kinds: &[ValueType]) -> Result<Vec<Sort>, AllocError>
    ensures { IfOk result (λ made. made.items ≡ map flat_sort (map ref_in kinds.now)) }
{
    let mut made = Vec::new(alloc);
    for t in kinds {
        made.push(flat_sort(t.as_ref()))?;
    }
    Ok(made)
}
