//! The types of a function.
ghost use Rattle.std.specs.Prelude.{◌≡◌, map, IfOk};
ghost use Rattle.bg_ast.specs.Meaning.{type_in, named_of};
ghost use Rattle.bg_ast.specs.Views.{type_of, type_name_of};
ghost use Rattle.bg_kinds.specs.Views.{ref_in};

use bg_ast::resolved::{Function, TypeName};
use bg_fits::{written_kind, written_kinds};
use bg_kinds::ValueType;
use std::alloc::{AllocError, Global};

/// The types of a function's arguments, and of its value.
#[derive(Drop)]
pub struct Signature {
    pub params: Vec<ValueType>,
    pub value: ValueType,
}

/// The types of a function, where these types are declared.
pub fn read_signature(
    alloc: Global,
    types: &[TypeName],
    f: &Function,
) -> Result<Signature, AllocError>
    ensures params { IfOk result (λ s. map ref_in s.params.items ≡ map (type_in (named_of (map type_name_of types.now))) (map type_of f.now.params.items)) }
    ensures value { IfOk result (λ s. ref_in s.value ≡ type_in (named_of (map type_name_of types.now)) (type_of f.now.result)) }
{
    let params = written_kinds(alloc, types, &f.params)?;
    let value = written_kind(alloc, types, &f.result)?;
    Ok(Signature { params, value })
}
