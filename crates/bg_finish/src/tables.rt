//! Tables of functions, by the applications among terms.
ghost use Rattle.std.specs.Prelude.{◌≡◌, ◌+◌, length, map, slice_get, IfOk, OnOk};
ghost use Rattle.bg_sense.specs.Eval.{value_at};
ghost use Rattle.bg_kinds.specs.Views.{ref_in};
ghost use Rattle.bg_term_table.specs.Locals.{local_in};
ghost use Rattle.bg_term_table.specs.Views.{meaning, meanings, head_of};
ghost use Rattle.bg_scalar.specs.Values.{val_of, value_of};
ghost use Rattle.bg_scalar.specs.Views.{vals_in};
ghost use Rattle.bg_wanted.specs.Scalars.{scalars_in};
ghost use Rattle.bg_finish.specs.Filled.{held_in, all_held, put_in, with_row, blank, blanks, read_or, args_in, scalars_at, IsPut, AreTables};

use bg_ast::resolved::Expr;
use bg_kinds::ValueType;
use bg_scalar::{Scalar, Table, Value, copy, is_same};
use bg_term_table::{Around, Head, Term, local};
use bg_wanted::{Row, default_value};
use std::alloc::{AllocError, Global};
use std::collections::BTreeMap;

/// A value for these arguments, unless the default tells it.
fn put(table: &mut Table, args: Vec<Value>, value: Value) -> Result<(), AllocError>
    ensures { OnOk result (held_in table.new ≡ put_in (held_in table.old) args.items value) }
{
    if is_same(&value, &table.default) {
        return Ok(());
    }
    table.entries.insert(args, value)?;
    Ok(())
}

/// A table without entries.
fn blank_table(alloc: Global, default: Value) -> Table
    ensures { held_in result ≡ blank (value_of default) }
{
    Table {
        entries: BTreeMap::new(alloc),
        default,
    }
}

/// A table without entries for each of these types of what functions give.
fn blank_tables(alloc: Global, results: &[ValueType]) -> Result<Vec<Table>, AllocError>
    ensures { IfOk result (λ made. all_held made.items ≡ blanks (map ref_in results.now)) }
{
    let mut made = Vec::new(alloc);
    for t in results {
        let default = default_value(alloc, t.as_ref())?;
        let table = blank_table(alloc, default);
        made.push(table)?;
    }
    Ok(made)
}

/// The value of the incarnation or the term with this number; 0 where there is none.
fn value_or(alloc: Global, values: &[Value], j: usize) -> Result<Value, AllocError>
    ensures { IfOk result (λ made. value_of made ≡ value_at (vals_in values.now) j) }
{
    match values.get(j) {
        None => Ok(Value::Plain(Scalar::Number(0))),
        Some(v) => copy(alloc, v),
    }
}

/// The value of an argument for which this scalar stands.
fn argument(alloc: Global, values: &[Value], e: &Expr, scalar: Scalar) -> Result<Value, AllocError>
    ensures { IfOk result (λ made. value_of made ≡ read_or (local_in (meaning e.now)) (vals_in values.now) (val_of scalar)) }
{
    match local(e) {
        None => Ok(Value::Plain(scalar)),
        Some(j) => value_or(alloc, values, j as usize),
    }
}

/// The values of arguments for which these scalars stand.
fn arguments(
    alloc: Global,
    values: &[Value],
    es: &[Expr],
    scalars: &[Scalar],
) -> Result<Vec<Value>, AllocError>
    ensures { IfOk result (λ made. vals_in made.items ≡ args_in (vals_in values.now) (meanings es.now) (scalars_in scalars.now)) }
{
    let mut made = Vec::new(alloc);
    let mut i = 0;
    while i < es.len() {
        if i >= scalars.len() {
            return Ok(made);
        }
        let value = argument(alloc, values, &es[i], scalars[i])?;
        made.push(value)?;
        i += 1;
    }
    Ok(made)
}

/// The scalars of the arguments in the row at a place.
fn scalars_at(rows: &[Row], i: usize) -> &[Scalar]
    ensures { scalars_in result.now ≡ scalars_at (slice_get rows.now i) }
{
    match rows.get(i) {
        None => &[],
        Some(r) => &r.args,
    }
}

/// So many more; more than a number holds are more than memory holds.
fn more(n: usize, k: usize) -> Result<usize, AllocError>
    ensures { IfOk result (λ m. m ≡ n + k) }
{
    match n.checked_add(k) {
        None => Err(AllocError),
        Some(m) => Ok(m),
    }
}

/// An application in the table of its function, if there is one.
fn put_row(
    tables: &mut Vec<Table>,
    function: u32,
    args: Vec<Value>,
    value: Value,
) -> Result<(), AllocError>
    ensures { OnOk result (all_held tables.new.items ≡ with_row (record { function = function; args = args.items; value = value }) (all_held tables.old.items)) }
{
    let f = function as usize;
    if f >= tables.len() {
        return Ok(());
    }
    put(&mut tables[f], args, value)
}

/// A term in the table of its function, if it is an application; these scalars stand for its arguments, and its value is that of the term
/// with this number.
fn put_term(
    alloc: Global,
    tables: &mut Vec<Table>,
    values: &[Value],
    term: &Term,
    scalars: &[Scalar],
    number: usize,
) -> Result<(), AllocError>
    ensures { OnOk result (IsPut (head_of term.now.head) (args_in (vals_in values.now) (meanings term.now.args.items) (scalars_in scalars.now)) (value_at (vals_in values.now) number) (all_held tables.old.items) (all_held tables.new.items)) }
{
    match &term.head {
        Head::Function(f) => {
            let args = arguments(alloc, values, &term.args, scalars)?;
            let value = value_or(alloc, values, number)?;
            put_row(tables, *f, args, value)
        }
        Head::Selects(_, _) => Ok(()),
        Head::Updates(_, _) => Ok(()),
        Head::Differs(_, _, _) => Ok(()),
    }
}

/// The tables of functions, by the applications among terms that have these rows behind so many incarnations.
pub fn tables(
    alloc: Global,
    around: Around<'_>,
    terms: &[Term],
    rows: &[Row],
    values: &[Value],
) -> Result<Vec<Table>, AllocError>
    ensures { IfOk result (λ made. AreTables (vals_in values.now) terms.now rows.now (length around.entry.incarnations.now) (map ref_in around.entry.results.now) made.items) }
{
    let mut made = blank_tables(alloc, around.results)?;
    let count = around.incarnations.len();
    let mut i = 0;
    while i < terms.len() {
        let number = more(count, i)?;
        let scalars = scalars_at(rows, i);
        put_term(alloc, &mut made, values, &terms[i], scalars, number)?;
        i += 1;
    }
    Ok(made)
}
