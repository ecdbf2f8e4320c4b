//! The tables of functions.
ghost use Rattle.std.specs.Prelude.{◌≡◌, ◌++◌, Bool, false, IfOk, OnOk, map, flat_map};
ghost use Rattle.bg_ast.specs.Views.{fun_of};
ghost use Rattle.bg_kinds.specs.Views.{ref_in};
ghost use Rattle.bg_scalar.specs.Values.{value_of};
ghost use Rattle.bg_scalar.specs.Views.{entry_in, table_in, vals_in};
ghost use Rattle.bg_told.specs.Lines.{texts};
ghost use Rattle.bg_told.specs.ValueTexts.{default_text, value_text, key_text, mapping_text, table_text};
ghost use Rattle.bg_told.specs.Sheets.{named_as};
ghost use Rattle.bg_told.specs.Entries.{declared_types, types_in, part_behind, function_line, all_named, params_of, result_in};

use crate::value::put_value;
use bg_ast::resolved::{Function, TypeName};
use bg_fits::{written_kind, written_kinds};
use bg_kinds::ValueType;
use bg_scalar::{Table, Value};
use std::alloc::{AllocError, Global};

/// The types of a function's arguments, and of its result.
#[derive(Drop)]
pub struct Signature {
    pub params: Vec<ValueType>,
    pub result: ValueType,
}

/// A part of a key that isn't its first.
fn put_part(
    out: &mut Vec<u8>,
    types: &[TypeName],
    kind: &ValueType,
    part: &Value,
) -> Result<(), AllocError>
    ensures { OnOk result (out.new.items ≡ out.old.items ++ part_behind (types_in types.now) (ref_in kind.now) part.now) }
{
    out.extend_from_slice(b",")?;
    put_value(out, part, types, kind.as_ref())
}

/// The parts of a key behind its first.
fn put_parts(
    out: &mut Vec<u8>,
    types: &[TypeName],
    kinds: &[ValueType],
    parts: &[Value],
) -> Result<(), AllocError>
    ensures { OnOk result (out.new.items ≡ out.old.items ++ texts (part_behind (types_in types.now)) (map ref_in kinds.now) parts.now) }
{
    for (i, kind) in kinds.iter().enumerate() {
        if i >= parts.len() {
            return Ok(());
        }
        put_part(out, types, kind, &parts[i])?;
    }
    Ok(())
}

/// A key.
fn put_key(
    out: &mut Vec<u8>,
    types: &[TypeName],
    kinds: &[ValueType],
    key: &[Value],
) -> Result<(), AllocError>
    ensures { OnOk result (out.new.items ≡ out.old.items ++ key_text (types_in types.now) (map ref_in kinds.now) (vals_in key.now)) }
{
    match kinds.split_first() {
        None => Ok(()),
        Some((kind, kinds)) => match key.split_first() {
            None => Ok(()),
            Some((part, parts)) => {
                put_value(out, part, types, kind.as_ref())?;
                put_parts(out, types, kinds, parts)
            }
        },
    }
}

/// What a table has at a key, and what stands between it and the next one.
fn put_mapping(
    out: &mut Vec<u8>,
    types: &[TypeName],
    signature: &Signature,
    key: &[Value],
    value: &Value,
) -> Result<(), AllocError>
    ensures { OnOk result (out.new.items ≡ out.old.items ++ mapping_text (types_in types.now) (params_of signature.now) (result_in signature.now) (vals_in key.now, value_of value.now)) }
{
    put_key(out, types, &signature.params, key)?;
    out.extend_from_slice(b" := ")?;
    put_value(out, value, types, signature.result.as_ref())?;
    out.extend_from_slice(b", ")
}

/// The entries of a table.
fn put_mappings(
    out: &mut Vec<u8>,
    types: &[TypeName],
    signature: &Signature,
    table: &Table,
) -> Result<(), AllocError>
    ensures { OnOk result (out.new.items ≡ out.old.items ++ flat_map (mapping_text (types_in types.now) (params_of signature.now) (result_in signature.now)) (map entry_in table.now.entries.entries)) }
{
    for (key, value) in &table.entries {
        put_mapping(out, types, signature, key, value)?;
    }
    Ok(())
}

/// The default of a table, and the bracket that closes it.
fn put_default(
    out: &mut Vec<u8>,
    types: &[TypeName],
    signature: &Signature,
    default: &Value,
) -> Result<(), AllocError>
    ensures { OnOk result (out.new.items ≡ out.old.items ++ default_text (value_text (types_in types.now) (result_in signature.now) (value_of default.now))) }
{
    out.extend_from_slice(b"else ")?;
    put_value(out, default, types, signature.result.as_ref())?;
    out.extend_from_slice(b"]")
}

/// A table.
fn put_table(
    out: &mut Vec<u8>,
    types: &[TypeName],
    signature: &Signature,
    table: &Table,
) -> Result<(), AllocError>
    ensures { OnOk result (out.new.items ≡ out.old.items ++ table_text (types_in types.now) (params_of signature.now) (result_in signature.now) (table_in table.now)) }
{
    out.extend_from_slice(b"[")?;
    put_mappings(out, types, signature, table)?;
    put_default(out, types, signature, &table.default)
}

/// What a function's written types stand for.
fn signature_of(
    alloc: Global,
    types: &[TypeName],
    function: &Function,
) -> Result<Signature, AllocError>
    ensures params { IfOk result (λ made. (b : Bool) → params_of made ≡ (named_as (declared_types types.now) (fun_of function.now) b).params) }
    ensures result { IfOk result (λ made. (b : Bool) → result_in made ≡ (named_as (declared_types types.now) (fun_of function.now) b).result) }
{
    let params = written_kinds(alloc, types, &function.params)?;
    let result = written_kind(alloc, types, &function.result)?;
    Ok(Signature { params, result })
}

/// The line of a function without a body.
fn put_bodiless(
    out: &mut Vec<u8>,
    types: &[TypeName],
    function: &Function,
    table: &Table,
) -> Result<(), AllocError>
    ensures { OnOk result (out.new.items ≡ out.old.items ++ function_line (types_in types.now) (named_as (declared_types types.now) (fun_of function.now) false) table.now) }
{
    let alloc = *out.allocator();
    let signature = signature_of(alloc, types, function)?;
    out.extend_from_slice(b"    function ")?;
    out.extend_from_slice(&function.name.text)?;
    out.extend_from_slice(b" = ")?;
    put_table(out, types, &signature, table)?;
    out.extend_from_slice(b"\n")?;
    Ok(())
}

/// The line of a function, unless it has a body.
fn put_function(
    out: &mut Vec<u8>,
    types: &[TypeName],
    function: &Function,
    has_body: bool,
    table: &Table,
) -> Result<(), AllocError>
    ensures { OnOk result (out.new.items ≡ out.old.items ++ function_line (types_in types.now) (named_as (declared_types types.now) (fun_of function.now) has_body) table.now) }
{
    match has_body {
        true => Ok(()),
        false => put_bodiless(out, types, function, table),
    }
}

/// The tables of these functions, of which some have a body and no table.
pub fn put_functions(
    out: &mut Vec<u8>,
    types: &[TypeName],
    functions: &[Function],
    bodies: &[bool],
    tables: &[Table],
) -> Result<(), AllocError>
    ensures { OnOk result (out.new.items ≡ out.old.items ++ texts (function_line (types_in types.now)) (all_named (declared_types types.now) (map fun_of functions.now) bodies.now) tables.now) }
{
    for (i, function) in functions.iter().enumerate() {
        if i >= bodies.len() || i >= tables.len() {
            return Ok(());
        }
        put_function(out, types, function, bodies[i], &tables[i])?;
    }
    Ok(())
}
