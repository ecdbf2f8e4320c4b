//! The names and tables that a certificate gives functions.
ghost use Rattle.std.specs.Prelude.{◌≡◌, map, IfOk};
ghost use Rattle.bg_ast.specs.Views.{type_name_of, fun_of};
ghost use Rattle.bg_kinds.specs.Views.{ref_in};
ghost use Rattle.bg_certtext.specs.Views.{value_of, entry_of, function_of};
ghost use Rattle.bg_confirm.specs.Typed.{values_fit, entry_by, entries_by, function_fits, functions_fit};

use crate::signature::{Signature, read_signature};
use crate::values::fits;
use bg_ast::resolved::{Function, TypeName};
use bg_certtext::{Entry, Value};
use bg_kinds::ValueType;
use std::alloc::{AllocError, Global};

/// Whether values are ones of these types.
fn values_fit(types: &[TypeName], kinds: &[ValueType], values: &[Value]) -> bool
    ensures { result ≡ values_fit (map type_name_of types.now) (map ref_in kinds.now) (map value_of values.now) }
{
    if kinds.len() != values.len() {
        return false;
    }
    for k in 0..values.len() {
        if !fits(types, kinds[k].as_ref(), &values[k]) {
            return false;
        }
    }
    true
}

/// Whether the arguments and the value of an entry are of a function's types.
fn entry_fits(types: &[TypeName], s: &Signature, entry: &Entry) -> bool
    ensures { result ≡ entry_by (map type_name_of types.now) (map ref_in s.now.params.items) (ref_in s.now.value) (entry_of entry.now) }
{
    values_fit(types, &s.params, &entry.key) && fits(types, s.value.as_ref(), &entry.value)
}

fn entries_fit(types: &[TypeName], s: &Signature, entries: &[Entry]) -> bool
    ensures { result ≡ entries_by (map type_name_of types.now) (map ref_in s.now.params.items) (ref_in s.now.value) (map entry_of entries.now) }
{
    for entry in entries {
        if !entry_fits(types, s, entry) {
            return false;
        }
    }
    true
}

/// Whether a table has the function's name, and its values are of the function's types.
fn function_fits(
    alloc: Global,
    types: &[TypeName],
    f: &Function,
    given: &bg_certtext::Function,
) -> Result<bool, AllocError>
    ensures { IfOk result (λ yes. yes ≡ function_fits (map type_name_of types.now) (fun_of f.now) (function_of given.now)) }
{
    let s = read_signature(alloc, types, f)?;
    Ok(
        f.name.text.as_slice() == given.name
            && (fits(types, s.value.as_ref(), &given.default)
                && entries_fit(types, &s, &given.entries)),
    )
}

/// Whether the tables are those of the functions without a body, in order.
pub fn functions_fit(
    alloc: Global,
    types: &[TypeName],
    functions: &[Function],
    given: &[bg_certtext::Function],
) -> Result<bool, AllocError>
    ensures { IfOk result (λ yes. yes ≡ functions_fit (map type_name_of types.now) (map fun_of functions.now) (map function_of given.now)) }
{
    let mut next = 0;
    for f in functions {
        if f.body.is_none() {
            if next >= given.len() {
                return Ok(false);
            }
            if !function_fits(alloc, types, f, &given[next])? {
                return Ok(false);
            }
            next += 1;
        }
    }
    Ok(next == given.len())
}
