//! The entry values of a counterexample.
ghost use Rattle.std.specs.Prelude.{◌≡◌, ◌++◌, OnOk, [], map, take, drop, slice_get};
ghost use Rattle.bg_ast.specs.Views.{declared_of, impl_of};
ghost use Rattle.bg_told.specs.Lines.{texts};
ghost use Rattle.bg_told.specs.Sheets.{head_of, variable_in, variables_of};
ghost use Rattle.bg_told.specs.Entries.{declared_types, types_in, values_of, lent_in, variables_in, entry_text, constant_line};

use crate::value::put_written;
use bg_ast::resolved::{Declared, Implementation, TypeName};
use bg_scalar::Value;
use std::alloc::AllocError;

/// Entry values: those of globals, and behind them those of a frame.
#[derive(Clone, Copy)]
pub struct Values<'a> {
    pub globals: &'a [Value],
    pub frame: &'a [Value],
}

/// The value with this number.
fn value_at(values: Values<'_>, i: usize) -> Option<&Value>
    ensures { lent_in result ≡ slice_get (values_of values.entry) i }
{
    if i < values.globals.len() {
        return Some(&values.globals[i]);
    }
    let behind = i - values.globals.len();
    if behind < values.frame.len() {
        Some(&values.frame[behind])
    } else {
        None
    }
}

/// What is left of the items after the first `n`.
pub fn behind(items: &[Value], n: usize) -> &[Value]
    ensures { result.now ≡ drop n items.now }
{
    if n <= items.len() { &items[n..] } else { &[] }
}

/// The first `n` items, or all.
pub fn front(items: &[Value], n: usize) -> &[Value]
    ensures { result.now ≡ take n items.now }
{
    if n <= items.len() { &items[..n] } else { items }
}

/// What is left of the values after the first `n`.
#[tactic(auto, using(crate::proofs::Texts::drop_past))]
fn rest_of(values: Values<'_>, n: usize) -> Values<'_>
    ensures { values_of result ≡ drop n (values_of values.entry) }
{
    let count = values.globals.len();
    if n <= count {
        Values {
            globals: behind(values.globals, n),
            frame: values.frame,
        }
    } else {
        Values {
            globals: &[],
            frame: behind(values.frame, n - count),
        }
    }
}

/// The line of a variable.
fn put_variable(
    out: &mut Vec<u8>,
    types: &[TypeName],
    variable: &Declared,
    value: &Value,
) -> Result<(), AllocError>
    ensures { OnOk result (out.new.items ≡ out.old.items ++ entry_text (types_in types.now) (variable_in (declared_types types.now) (declared_of variable.now)) value.now) }
{
    out.extend_from_slice(b"    var ")?;
    out.extend_from_slice(&variable.name.text)?;
    out.extend_from_slice(b" = ")?;
    put_written(out, types, &variable.ty, value)?;
    out.extend_from_slice(b"\n")
}

/// The entry values of these variables.
fn put_values(
    out: &mut Vec<u8>,
    types: &[TypeName],
    variables: &[Declared],
    values: Values<'_>,
) -> Result<(), AllocError>
    ensures { OnOk result (out.new.items ≡ out.old.items ++ texts (entry_text (types_in types.now)) (variables_in types.now variables.now) (values_of values.entry)) }
{
    for (i, variable) in variables.iter().enumerate() {
        match value_at(values, i) {
            Some(value) => put_variable(out, types, variable, value)?,
            None => return Ok(()),
        }
    }
    Ok(())
}

/// The line of a constant.
fn put_constant(
    out: &mut Vec<u8>,
    types: &[TypeName],
    constant: &Declared,
    value: &Value,
) -> Result<(), AllocError>
    ensures { OnOk result (out.new.items ≡ out.old.items ++ constant_line (types_in types.now) (variable_in (declared_types types.now) (declared_of constant.now)) value.now) }
{
    out.extend_from_slice(b"    const ")?;
    out.extend_from_slice(&constant.name.text)?;
    out.extend_from_slice(b" = ")?;
    put_written(out, types, &constant.ty, value)?;
    out.extend_from_slice(b"\n")
}

/// The values of these constants.
pub fn put_constants(
    out: &mut Vec<u8>,
    types: &[TypeName],
    constants: &[Declared],
    values: &[Value],
) -> Result<(), AllocError>
    ensures { OnOk result (out.new.items ≡ out.old.items ++ texts (constant_line (types_in types.now)) (variables_in types.now constants.now) values.now) }
{
    for (i, constant) in constants.iter().enumerate() {
        if i >= values.len() {
            return Ok(());
        }
        put_constant(out, types, constant, &values[i])?;
    }
    Ok(())
}

/// The entry values of three groups of variables.
fn put_groups(
    out: &mut Vec<u8>,
    types: &[TypeName],
    params: &[Declared],
    results: &[Declared],
    locals: &[Declared],
    values: Values<'_>,
) -> Result<(), AllocError>
    ensures { OnOk result (out.new.items ≡ out.old.items ++ texts (entry_text (types_in types.now)) (variables_in types.now params.now ++ (variables_in types.now results.now ++ variables_in types.now locals.now)) (values_of values.entry)) }
{
    let behind = rest_of(values, params.len());
    put_values(out, types, params, values)?;
    put_values(out, types, results, behind)?;
    put_values(out, types, locals, rest_of(behind, results.len()))?;
    Ok(())
}

/// The entry values of parameters, results and locals.
fn put_frame(
    out: &mut Vec<u8>,
    types: &[TypeName],
    implementation: &Implementation,
    values: Values<'_>,
) -> Result<(), AllocError>
    ensures { OnOk result (out.new.items ≡ out.old.items ++ texts (entry_text (types_in types.now)) (variables_of (declared_types types.now) [] (head_of (impl_of implementation.now))) (values_of values.entry)) }
{
    put_groups(
        out,
        types,
        &implementation.params,
        &implementation.results,
        &implementation.locals,
        values,
    )
}

/// The entry values of globals, parameters, results and locals.
pub fn put_entry(
    out: &mut Vec<u8>,
    types: &[TypeName],
    globals: &[Declared],
    implementation: &Implementation,
    values: Values<'_>,
) -> Result<(), AllocError>
    ensures { OnOk result (out.new.items ≡ out.old.items ++ texts (entry_text (types_in types.now)) (variables_of (declared_types types.now) (map declared_of globals.now) (head_of (impl_of implementation.now))) (values_of values.entry)) }
{
    put_values(out, types, globals, values)?;
    put_frame(out, types, implementation, rest_of(values, globals.len()))?;
    Ok(())
}
