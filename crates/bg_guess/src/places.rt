//! The places of whole numbers.
ghost use Rattle.std.specs.Prelude.{◌≡◌, map, IfOk};
ghost use Rattle.bg_ast.specs.Values.{is_int};
ghost use Rattle.bg_kinds.specs.Views.{base_of, ref_in, ref_of};
ghost use Rattle.bg_guess.specs.Lists.{places_of_numbers};

use crate::numbers::number;
use bg_fits::base_in;
use bg_kinds::{Base, TypeRef, ValueType};
use std::alloc::{AllocError, Global};

fn is_int_base(base: Base) -> bool
    ensures { result ≡ is_int (base_of base) }
{
    match base {
        Base::Int => true,
        Base::Bool => false,
        Base::User(_) => false,
    }
}

fn is_int(t: TypeRef<'_>) -> bool
    ensures { result ≡ is_int (ref_of t.entry) }
{
    match base_in(t) {
        None => false,
        Some(base) => is_int_base(base),
    }
}

/// Which of these are types of whole numbers.
pub fn places_of_numbers(alloc: Global, kinds: &[ValueType]) -> Result<Vec<u32>, AllocError>
    ensures { IfOk result (λ made. made.items ≡ places_of_numbers 0 (map ref_in kinds.now)) }
{
    let mut made = Vec::new(alloc);
    for k in 0..kinds.len() {
        if is_int(kinds[k].as_ref()) {
            made.push(number(k)?)?;
        }
    }
    Ok(made)
}
