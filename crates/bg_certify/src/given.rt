//! Values of constants and tables of functions, as a certificate has them.
ghost use Rattle.std.specs.Prelude.{◌≡◌, map, option_map, IfOk};
ghost use Rattle.bg_ast.specs.Views.{type_name_of, declared_of, fun_of, program_of};
ghost use Rattle.bg_kinds.specs.Views.{ref_in};
ghost use Rattle.bg_scalar.specs.Values as scalar;
ghost use Rattle.bg_scalar.specs.Views.{table_in, tables_in, vals_in};
ghost use Rattle.bg_certtext.specs.Views as text;
ghost use Rattle.bg_certtext.specs.Views.{given_of, interp_of};
ghost use Rattle.bg_certify.specs.Read.{names_in, constants_in};
ghost use Rattle.bg_certify.specs.Given.{type_names, givens, entry_of, head_of, heads, function_of, functions, interp_by, declared_names, declared_types};

use crate::values::{value_of, values_of};
use bg_ast::resolved::{Declared, TypeName};
use bg_certtext::{Entry, Function, Given, Interp};
use bg_check::Verdict;
use bg_confirm::{Signature, read_signature, type_at};
use bg_fits::push_kinds;
use bg_inference::Outcome;
use bg_kinds::ValueType;
use bg_scalar::{Table, Value};
use std::alloc::{AllocError, Global};

/// These constants, which have these types, with their values, as far as constants and values go.
fn givens<'p>(
    alloc: Global,
    types: &'p [TypeName],
    constants: &'p [Declared],
    kinds: &[ValueType],
    values: &[Value],
) -> Result<Vec<Given<'p>>, AllocError>
    ensures { IfOk result (λ made. map given_of made.items ≡ givens (type_names (map type_name_of types.entry.now)) (declared_names (map declared_of constants.entry.now)) (map ref_in kinds.now) (vals_in values.now)) }
{
    let mut made = Vec::new(alloc);
    for k in 0..constants.len() {
        if k < values.len() {
            let value = value_of(alloc, types, type_at(kinds, k), &values[k])?;
            made.push(Given {
                name: constants[k].name.text.as_slice(),
                value,
            })?;
        }
    }
    Ok(made)
}

/// An entry of a function's table.
fn entry_of<'p>(
    alloc: Global,
    types: &'p [TypeName],
    s: &Signature,
    key: &[Value],
    value: &Value,
) -> Result<Entry<'p>, AllocError>
    ensures { IfOk result (λ made. text.entry_of made ≡ entry_of (type_names (map type_name_of types.entry.now)) (map ref_in s.now.params.items) (ref_in s.now.value) (vals_in key.now, scalar.value_of value.now)) }
{
    let key = values_of(alloc, types, &s.params, key)?;
    let value = value_of(alloc, types, s.value.as_ref(), value)?;
    Ok(Entry { key, value })
}

fn entries_of<'p>(
    alloc: Global,
    types: &'p [TypeName],
    s: &Signature,
    table: &Table,
) -> Result<Vec<Entry<'p>>, AllocError>
    ensures { IfOk result (λ made. map text.entry_of made.items ≡ map (entry_of (type_names (map type_name_of types.entry.now)) (map ref_in s.now.params.items) (ref_in s.now.value)) (table_in table.now).entries) }
{
    let mut made = Vec::new(alloc);
    for (key, value) in &table.entries {
        made.push(entry_of(alloc, types, s, key, value)?)?;
    }
    Ok(made)
}

/// A function's table.
fn function_of<'p>(
    alloc: Global,
    types: &'p [TypeName],
    f: &'p bg_ast::resolved::Function,
    table: &Table,
) -> Result<Function<'p>, AllocError>
    ensures { IfOk result (λ made. text.function_of made ≡ function_of (type_names (map type_name_of types.entry.now)) (head_of (map type_name_of types.entry.now) (fun_of f.entry.now)) (table_in table.now)) }
{
    let s = read_signature(alloc, types, f)?;
    let entries = entries_of(alloc, types, &s, table)?;
    let default = value_of(alloc, types, s.value.as_ref(), &table.default)?;
    let name = f.name.text.as_slice();
    Ok(Function {
        name,
        entries,
        default,
    })
}

/// The tables of these functions, but for those that have a body, as far as all go.
fn functions<'p>(
    alloc: Global,
    types: &'p [TypeName],
    declared: &'p [bg_ast::resolved::Function],
    bodies: &[bool],
    tables: &[Table],
) -> Result<Vec<Function<'p>>, AllocError>
    ensures { IfOk result (λ made. map text.function_of made.items ≡ functions (type_names (map type_name_of types.entry.now)) (heads (map type_name_of types.entry.now) (map fun_of declared.entry.now)) bodies.now (tables_in tables.now)) }
{
    let mut made = Vec::new(alloc);
    for k in 0..declared.len() {
        if k >= bodies.len() {
            return Ok(made);
        }
        if k >= tables.len() {
            return Ok(made);
        }
        let has_body = bodies[k];
        if !has_body {
            made.push(function_of(alloc, types, &declared[k], &tables[k])?)?;
        }
    }
    Ok(made)
}

/// The values of an outcome's constants and the tables of its functions, where its verdict on the axioms' own program has some.
pub(crate) fn interp_by<'p>(
    alloc: Global,
    outcome: &'p Outcome,
) -> Result<Option<Interp<'p>>, AllocError>
    ensures { IfOk result (λ made. option_map interp_of made ≡ interp_by (names_in outcome.entry.now) outcome.entry.now.axioms) }
{
    match &outcome.axioms {
        Verdict::Refuted(cex) => {
            let types = outcome.opened.types.as_slice();
            let kinds = kinds_of(alloc, outcome)?;
            let constants = givens(alloc, types, constants_of(outcome), &kinds, &cex.globals)?;
            let declared = outcome.opened.functions.as_slice();
            let functions = functions(alloc, types, declared, &outcome.bodies, &cex.tables)?;
            Ok(Some(Interp {
                constants,
                functions,
            }))
        }
        _ => Ok(None),
    }
}

/// The variables that stand for the constants: in the opened program they are behind the globals.
fn constants_of(outcome: &Outcome) -> &[Declared]
    ensures { map declared_of result.now ≡ constants_in outcome.now }
{
    let all = outcome.opened.globals.as_slice();
    if outcome.globals <= all.len() {
        &all[outcome.globals..]
    } else {
        &[]
    }
}

/// Their types.
fn kinds_of(alloc: Global, outcome: &Outcome) -> Result<Vec<ValueType>, AllocError>
    ensures { IfOk result (λ made. map ref_in made.items ≡ declared_types (program_of outcome.now.opened).types (constants_in outcome.now)) }
{
    let mut made = Vec::new(alloc);
    push_kinds(
        alloc,
        outcome.opened.types.as_slice(),
        constants_of(outcome),
        &mut made,
    )?;
    Ok(made)
}
